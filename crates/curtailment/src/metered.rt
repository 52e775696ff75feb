// The metered basis: the load that a site has on average in the curtailment windows, above its firm demand.
ghost use Rattle.std.specs.Prelude.{◌≡◌, ℕ, ◌≤◌, true};
ghost use Rattle.billing.specs.Prices.{filed};
ghost use Rattle.curtailment.specs.Metering.{metered_serves, metered_credit, metered_failure};
ghost use Rattle.curtailment.specs.Pricing.{monthly_charge};
ghost use Rattle.billing.proofs.Limits.{limited};
ghost use Rattle.curtailment.specs.Loads.{metered_bounded, metered_falls};
ghost use Rattle.std.proofs.Common.{rules};

use crate::basis::Basis;
use crate::kilowatts::Kilowatts;
use crate::price::{monthly_cents, prices};
use billing::amount::cents;
use billing::month::Month;
use billing::schedule::Schedule;
use calendar::season::SeasonKind;

// The basis of a site with a recording meter; it has no terms of its own.
#[derive(Clone, Copy, Debug, PartialEq, Eq)]
pub struct Metered;

impl Basis for Metered {
    type Terms = ();

    ghost terms = { λ _. tt };

    ghost serves = { λ _ s. metered_serves s };

    ghost admits = { λ _. true };

    ghost monthly = { λ _. monthly_charge filed };

    ghost credit = { λ _ s m f. metered_credit filed s m f };

    ghost failure = { λ _ s f q. metered_failure filed s f q };

    ghost monthly_bounded = { Prim.search rules };

    ghost credit_bounded = { λ b s m f w h. metered_bounded s m f (limited m w) };

    ghost failure_bounded = { Prim.search rules };

    ghost credit_falls = { λ b s m f g w h k. metered_falls s m f g h };

    fn serves(&self, schedule: Schedule) -> bool {
        matches!(
            schedule,
            Schedule::Five
                | Schedule::Six
                | Schedule::SixTs
                | Schedule::Gs2
                | Schedule::Gs2T
                | Schedule::Gs3
                | Schedule::Gs4
        )
    }

    fn admits_firm_demand(&self) -> bool {
        true
    }

    fn monthly_charge(&self) -> u64 {
        monthly_cents()
    }

    fn credit_at(&self, season: SeasonKind, m: &Month, firm: Kilowatts) -> u64 {
        let figures = m.figures();
        let covered = u64::from(figures.halves) * u64::from(firm.kw());
        let above = u64::from(figures.curtailable).saturating_sub(covered);
        cents(prices(season).credit * above, figures.halves)
    }

    fn failure_at(&self, season: SeasonKind, firm: Kilowatts, demand: Kilowatts) -> u64 {
        cents(
            prices(season).failure * u64::from(demand.above(firm).kw()),
            1,
        )
    }
}
