// Opening a month, and taking its days one after the other.
ghost use Rattle.std.specs.Prelude.{◌≡◌};
ghost use Rattle.std.specs.Option.{option_map};
ghost use Rattle.metering.specs.Sums.{figures_in};
ghost use Rattle.tally.specs.Progress.{progress_of, is_full, started, date_today, day_taken};

use crate::progress::OpenMonth;
use calendar::date::{CalendarMonth, Date};
use calendar::number::{LAST_DAY, date_of};
use metering::measured::MeasuredDay;
use metering::sums::MonthSums;

impl OpenMonth {
    // The month that begins on a day; none where the day is not a month's first, or after 31 December 2099.
    pub fn start(day: u32) -> Option<OpenMonth>
        ensures { option_map progress_of result ≡ started day }
    {
        if day >= LAST_DAY {
            return None;
        }
        let date = date_of(day)?;
        if date.day != 1 {
            return None;
        }
        Some(OpenMonth {
            today: day,
            month: date.calendar_month(),
            sums: MonthSums::none(),
        })
    }

    // Whether all days of the month were taken.
    pub(crate) fn is_full(&self) -> bool
        ensures { result ≡ is_full (progress_of self.now) }
    {
        Some(self.sums.days()) == self.month.length()
    }

    // The next day to be taken.
    pub fn today(&self) -> u32
        ensures { result ≡ (progress_of self.now).today }
    {
        self.today
    }

    // The calendar month.
    pub fn month(&self) -> CalendarMonth
        ensures { result ≡ (progress_of self.now).month }
    {
        self.month
    }

    // The date of today; none while the month is full.
    pub fn date(&self) -> Option<Date>
        ensures { result ≡ date_today (progress_of self.now) }
    {
        if self.is_full() {
            return None;
        }
        Some(Date {
            year: self.month.year,
            month: self.month.month,
            day: self.sums.days() + 1,
        })
    }

    // The month with one day more; none while it is full, or after 31 December 2099.
    pub fn with_day(&self, day: &MeasuredDay) -> Option<OpenMonth>
        ensures { option_map progress_of result ≡ day_taken (progress_of self.now) (figures_in day.now) }
    {
        if self.is_full() || self.today >= LAST_DAY {
            return None;
        }
        Some(OpenMonth {
            today: self.today + 1,
            month: self.month,
            sums: self.sums.with_day(day)?,
        })
    }
}
