// The tariff rules as one library: what a site is billed, what curtailment earns and costs, and the worked figures.
#![tactic(auto)]

pub mod worked;

pub use billing::amount::cents;
pub use billing::fault::TermsFault;
pub use billing::figures::Figures;
pub use billing::highest::{Demand, highest};
pub use billing::month::Month;
pub use billing::price::{MonthClass, Prices};
pub use billing::schedule::{Schedule, UnknownCode};
pub use calendar::by_season::BySeason;
pub use calendar::date::{CalendarMonth, Date};
pub use calendar::number::date_of;
pub use calendar::season::{Season, SeasonKind};
pub use curtailment::basis::Basis;
pub use curtailment::kilowatts::Kilowatts;
pub use curtailment::metered::Metered;
pub use curtailment::none::NoBasis;
pub use curtailment::standby::{Standby, StandbyTerms};
pub use metering::accept::{NoticeFault, accept, accept_all};
pub use metering::day::{DayFigures, day_figures};
pub use metering::firm::FirmDemands;
pub use metering::measured::MeasuredDay;
pub use metering::notice::{Announced, Notice};
pub use metering::period::{HalfHours, Period};
pub use metering::sums::MonthSums;
pub use rates::bill::base_bill;
pub use rates::entered::Entered;
pub use rates::gs3ev::{Billing, Gs3ev, KeptMonth};
pub use rates::rate::Rate;
pub use rates::rider::Rider;
