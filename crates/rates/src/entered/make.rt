// Making an entered rate, and what it tells.
ghost use Rattle.std.specs.Prelude.{◌≡◌};
ghost use Rattle.billing.specs.Months.{map_ok};
ghost use Rattle.rates.specs.Entering.{schedule_of, entered_for, entered_pair};
ghost use Rattle.std.proofs.Common.{arith};
ghost use Rattle.billing.proofs.Limits.{limited};

use crate::entered::Entered;
use crate::rate::Rate;
use billing::fault::TermsFault;
use billing::month::Month;
use billing::schedule::Schedule;

impl Entered {
    // A rate of entered bills under a schedule, which is not GS-3EV.
    pub fn new(schedule: Schedule) -> Result<Entered, TermsFault>
        ensures { map_ok schedule_of result ≡ entered_for schedule }
    {
        if schedule == Schedule::Gs3Ev {
            return Err(TermsFault::OutsideLimits);
        }
        Ok(Entered { schedule })
    }
}

impl Rate for Entered {
    type Standing = ();

    ghost standing = { λ _. tt };

    ghost schedule = { λ e. e.schedule };

    ghost pair = { λ _ m. entered_pair m };

    ghost next = { λ s _. s };

    ghost bounded = { λ r m w. let l = limited m w in (omega arith, omega arith) };

    fn schedule(&self) -> Schedule {
        self.schedule
    }

    fn quote(&self, m: &Month) -> (u64, u64) {
        (300_000 * u64::from(m.figures().entered), 0)
    }

    fn close(&mut self, _m: &Month) {}
}
