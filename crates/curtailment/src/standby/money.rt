// What the standby basis earns and costs.
ghost use Rattle.std.specs.Prelude.{◌≡◌, ℕ, ◌≤◌, true};
ghost use Rattle.billing.specs.Prices.{filed};
ghost use Rattle.curtailment.specs.Pricing.{monthly_charge};
ghost use Rattle.curtailment.specs.Standing.{terms_of, standby_serves, standby_credit, standby_failure};
ghost use Rattle.billing.proofs.Limits.{limited};
ghost use Rattle.curtailment.specs.Plants.{standby_bounded, failure_bounded_lem, standby_falls};
ghost use Rattle.std.proofs.Common.{rules, arith};

use crate::basis::Basis;
use crate::kilowatts::Kilowatts;
use crate::price::{monthly_cents, prices};
use crate::standby::{Standby, StandbyTerms};
use billing::amount::cents;
use billing::month::Month;
use billing::schedule::Schedule;
use calendar::season::SeasonKind;

impl Basis for Standby {
    type Terms = StandbyTerms;

    ghost terms = { terms_of };

    ghost serves = { λ _ s. standby_serves s };

    ghost admits = { λ _. true };

    ghost monthly = { λ _. monthly_charge filed };

    ghost credit = { λ t s m f. standby_credit filed t s m f };

    ghost failure = { λ t s f q. standby_failure filed t s f q };

    ghost monthly_bounded = { Prim.search rules };

    ghost credit_bounded = { λ b s m f w h. standby_bounded b s m f (limited m w) };

    ghost failure_bounded = { λ b s f q h k. failure_bounded_lem b s f q k };

    ghost credit_falls = { λ b s m f g w h k. standby_falls b s m f g h };

    fn serves(&self, schedule: Schedule) -> bool {
        matches!(schedule, Schedule::Eight)
    }

    fn admits_firm_demand(&self) -> bool {
        true
    }

    fn monthly_charge(&self) -> u64 {
        monthly_cents()
    }

    fn credit_at(&self, season: SeasonKind, m: &Month, firm: Kilowatts) -> u64 {
        let standby = u64::from(self.hours) * u64::from(self.available(season, firm).kw());
        let above = u64::from(m.figures().supplementary.saturating_sub(firm.kw()));
        cents(prices(season).credit * (standby + 3500 * above), 3500)
    }

    fn failure_at(&self, season: SeasonKind, firm: Kilowatts, demand: Kilowatts) -> u64 {
        cents(
            prices(season).failure * self.failing(season, firm, demand),
            3500,
        )
    }
}
