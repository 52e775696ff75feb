// No curtailment.
ghost use Rattle.std.specs.Prelude.{◌≡◌, ℕ, ◌≤◌, true, false};
ghost use Rattle.std.proofs.Common.{rules};

use crate::basis::Basis;
use crate::kilowatts::Kilowatts;
use billing::month::Month;
use billing::schedule::Schedule;
use calendar::season::SeasonKind;

// The basis of a site that has not chosen curtailment: any schedule, no firm demand, no money.
#[derive(Clone, Copy, Debug, PartialEq, Eq)]
pub struct NoBasis;

impl Basis for NoBasis {
    type Terms = ();

    ghost terms = { λ _. tt };

    ghost serves = { λ _ _. true };

    ghost admits = { λ _. false };

    ghost monthly = { λ _. 0 };

    ghost credit = { λ _ _ _ _. 0 };

    ghost failure = { λ _ _ _ _. 0 };

    ghost monthly_bounded = { Prim.search rules };

    ghost credit_bounded = { Prim.search rules };

    ghost failure_bounded = { Prim.search rules };

    ghost credit_falls = { Prim.search rules };

    fn serves(&self, _schedule: Schedule) -> bool {
        true
    }

    fn admits_firm_demand(&self) -> bool {
        false
    }

    fn monthly_charge(&self) -> u64 {
        0
    }

    fn credit_at(&self, _season: SeasonKind, _m: &Month, _firm: Kilowatts) -> u64 {
        0
    }

    fn failure_at(&self, _season: SeasonKind, _firm: Kilowatts, _demand: Kilowatts) -> u64 {
        0
    }
}
