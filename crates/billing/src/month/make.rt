// Making a month, which refuses figures outside their limits, and reading it.
ghost use Rattle.std.specs.Prelude.{◌≡◌};
ghost use Rattle.billing.specs.Limits.{has_days, Limited};
ghost use Rattle.billing.specs.Months.{figures_of, checked, map_ok};

use crate::fault::TermsFault;
use crate::figures::Figures;
use crate::month::Month;
use calendar::date::CalendarMonth;

// Whether a month of this number can have this many days: in a common year or in a leap year.
fn has_days(number: u32, days: u32) -> bool
    ensures { result ≡ has_days number days }
{
    let length_in = |year: u32| {
        let month = CalendarMonth {
            year,
            month: number,
        };
        month.length()
    };
    length_in(2001) == Some(days) || length_in(2004) == Some(days)
}

impl Month {
    // A month of these figures, or the refusal of figures outside their limits.
    pub fn new(figures: Figures) -> Result<Month, TermsFault>
        ensures { map_ok figures_of result ≡ checked figures }
    {
        let f = figures;
        let within = has_days(f.number, f.days)
            && f.peak <= 100_000
            && f.supplementary <= 100_000
            && f.entered <= 4_000_000_000
            && f.energy >= f.peak
            && f.energy <= 48 * f.days * f.peak
            && f.halves <= 20 * f.days
            && u64::from(f.curtailable) <= u64::from(f.halves) * u64::from(f.peak);
        if within {
            Ok(Month { figures })
        } else {
            Err(TermsFault::OutsideLimits)
        }
    }

    // Its figures.
    #[tactic(auto, using(crate::proofs::Limits::limited))]
    pub fn figures(&self) -> Figures
        ensures value { result ≡ figures_of self.now }
        ensures limited { Limited result }
    {
        self.figures
    }
}
