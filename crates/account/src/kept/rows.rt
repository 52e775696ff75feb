// Keeping a closed month, and letting a season's months go.
ghost use Rattle.std.specs.Prelude.{◌≡◌, ◌<◌, ◌≤◌, [], ◌∷◌, ◌++◌, length};
ghost use Rattle.billing.specs.Months.{figures_of};
ghost use Rattle.account.specs.Seasons.{credited, kept_in, goes_on, credited_month};

use crate::kept::{SeasonRow, SeasonRows};
use billing::few::Few;
use billing::figures::Figures;
use billing::month::Month;
use calendar::date::CalendarMonth;

// Whether the month after is credited to the same season: June to August, and December to February.
pub(crate) fn goes_on(month: u32) -> bool
    ensures { result ≡ goes_on month }
{
    matches!(month, 6..=8 | 12 | 1..=2)
}

impl SeasonRow {
    // A closed month with its credit.
    pub(crate) fn new(month: CalendarMonth, closed: &Month, credit: u64) -> SeasonRow
        requires { credit ≤ 1000000000 }
        ensures { credited result ≡ credited_month month (figures_of closed.now) credit }
    {
        SeasonRow {
            month,
            figures: closed.figures(),
            credit,
        }
    }

    // January 2000 without a reading, which fills a place that is not in use.
    fn blank() -> SeasonRow {
        SeasonRow {
            month: CalendarMonth {
                year: 2000,
                month: 1,
            },
            figures: Figures {
                number: 1,
                days: 31,
                ..Figures::default()
            },
            credit: 0,
        }
    }
}

impl SeasonRows {
    // No month.
    pub(crate) fn none() -> SeasonRows
        ensures { kept_in result ≡ [] }
    {
        SeasonRows {
            rows: Few::new(SeasonRow::blank()),
        }
    }

    // One month more, the newest.
    pub(crate) fn keep(&mut self, row: SeasonRow)
        requires { length (kept_in self.old) < 3 }
        ensures { kept_in self.new ≡ kept_in self.old ++ credited row ∷ [] }
    {
        self.rows.push(row).unwrap();
    }
}
