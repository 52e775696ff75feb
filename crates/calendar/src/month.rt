// The days of a calendar month: how many, and the numbers of its first and last.
ghost use Rattle.std.specs.Prelude.{◌≡◌, ◌+◌, ◌≤◌};
ghost use Rattle.calendar.specs.Dates.{counted, first_counted, first_day, length_of, first_day_of, last_day_of, last_day};

use crate::count::{MonthsOf, Years, days_before};
use crate::date::CalendarMonth;
use crate::length::month_length;

impl CalendarMonth {
    // Whether each day of the month has a number: the months of 2000 to 2099.
    fn is_counted(&self) -> bool
        ensures { result ≡ counted self.now }
    {
        (2000..=2099).contains(&self.year) && (1..=12).contains(&self.month)
    }

    // Whether the month's first day has a number: January 2100 too.
    fn first_is_counted(&self) -> bool
        ensures { result ≡ first_counted self.now }
    {
        self.is_counted() || self.year == 2100 && self.month == 1
    }

    // How many days the month has; none outside the years 2000 to 2099.
    pub fn length(&self) -> Option<u32>
        ensures { result ≡ length_of self.now }
    {
        self.is_counted()
            .then_some(month_length(self.year, self.month))
    }

    // The days from 1 January 2000 up to the month.
    fn days_before(&self) -> u32
        requires from_2000 { 2000 ≤ self.now.year }
        requires to_2100 { self.now.year ≤ 2100 }
        requires from_january { 1 ≤ self.now.month }
        requires to_december { self.now.month ≤ 12 }
        ensures value { result ≡ first_day self.now.year self.now.month }
        ensures bound { result ≤ last_day + 366 }
    {
        let years = days_before(&Years, 2000, self.year);
        years + days_before(&MonthsOf { year: self.year }, 1, self.month)
    }

    // The number of the month's first day; none where that day has none.
    pub fn first_day(&self) -> Option<u32>
        ensures { result ≡ first_day_of self.now }
    {
        self.first_is_counted().then(|| self.days_before())
    }

    // The number of the month's last day; none outside the years 2000 to 2099.
    pub fn last_day(&self) -> Option<u32>
        ensures { result ≡ last_day_of self.now }
    {
        let length = self.length()?;
        Some(self.days_before() + length - 1)
    }
}
