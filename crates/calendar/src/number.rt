// The date of a day number, and the day number of a date.
ghost use Rattle.std.specs.Prelude.{◌≡◌};
ghost use Rattle.calendar.specs.Dates.{date, dated, month_of, number_of};

use crate::count::{MonthsOf, Years, locate};
use crate::date::{CalendarMonth, Date};
use crate::length::month_length;

// The last day with a number, 1 January 2100.
pub const LAST_DAY: u32 = 36_525;

// The date of a day number, where day 0 is 1 January 2000; none past 1 January 2100.
pub fn date_of(day: u32) -> Option<Date>
    ensures { result ≡ dated day }
{
    if day > LAST_DAY {
        return None;
    }
    let (year, day_of_year) = locate(&Years, 2000, 2100, day);
    let (month, day_of_month) = locate(&MonthsOf { year }, 1, 12, day_of_year);
    Some(Date::on(year, month, day_of_month + 1))
}

impl Date {
    // The date with a year, a month and a day.
    pub(crate) fn on(year: u32, month: u32, day: u32) -> Date
        ensures { result ≡ date year month day }
    {
        Date { year, month, day }
    }

    // The date's calendar month.
    pub fn calendar_month(&self) -> CalendarMonth
        ensures { result ≡ month_of self.now }
    {
        CalendarMonth {
            year: self.year,
            month: self.month,
        }
    }

    // The number of the date; none where there is no such day, or it has no number.
    pub fn day_number(&self) -> Option<u32>
        ensures { result ≡ number_of self.now }
    {
        // The day is tested first: to find the month's first day, years and months are counted.
        if self.day < 1 || self.day > month_length(self.year, self.month) {
            return None;
        }
        let first = self.calendar_month().first_day()?;
        let number = first + (self.day - 1);
        (number <= LAST_DAY).then_some(number)
    }
}
