// A month whose days were all taken: its last day, its figures, and the month after it.
ghost use Rattle.std.specs.Prelude.{◌≡◌, true};
ghost use Rattle.calendar.specs.Dates.{first_counted};
ghost use Rattle.std.specs.Option.{option_map};
ghost use Rattle.billing.specs.Months.{figures_of};
ghost use Rattle.tally.specs.Progress.{progress_of, month_after, last_taken, closed_at, turned};

use crate::progress::OpenMonth;
use billing::month::Month;
use calendar::date::CalendarMonth;
use metering::sums::MonthSums;

// The calendar month after a month.
fn month_after(month: CalendarMonth) -> CalendarMonth
    requires { first_counted month ≡ true }
    ensures { result ≡ month_after month }
{
    if month.month < 12 {
        CalendarMonth {
            year: month.year,
            month: month.month + 1,
        }
    } else {
        CalendarMonth {
            year: month.year + 1,
            month: 1,
        }
    }
}

impl OpenMonth {
    // The month's last day, once it was taken.
    pub fn last_day(&self) -> Option<u32>
        ensures { result ≡ last_taken (progress_of self.now) }
    {
        self.is_full().then(|| self.today - 1)
    }

    // The month with the two figures that are given at its closing; none before all its days were taken, or where one is above its limit.
    pub fn closed(&self, supplementary: u32, entered: u32) -> Option<Month>
        ensures { option_map figures_of result ≡ closed_at (progress_of self.now) supplementary entered }
    {
        if !self.is_full() {
            return None;
        }
        let figures = self
            .sums
            .month_figures(self.month.month, supplementary, entered);
        Month::new(figures).ok()
    }

    // The month after, once all days of this one were taken.
    pub fn next(&self) -> Option<OpenMonth>
        ensures { option_map progress_of result ≡ turned (progress_of self.now) }
    {
        if !self.is_full() {
            return None;
        }
        Some(OpenMonth {
            today: self.today,
            month: month_after(self.month),
            sums: MonthSums::none(),
        })
    }
}
