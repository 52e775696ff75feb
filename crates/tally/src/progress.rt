// The month that is open: today, and the days that were taken of it with their sums.
ghost use Rattle.std.specs.Prelude.{◌≡◌, ◌+◌, ◌≤◌, true};
ghost use Rattle.calendar.specs.Dates.{first_day, month_length, first_counted, last_day};
ghost use Rattle.calendar.specs.declared.date.CalendarMonth.{CalendarMonth};
ghost use Rattle.metering.specs.Sums.{sums_of};
ghost use Rattle.metering.specs.declared.sums.MonthSums.{MonthSums};

use calendar::date::CalendarMonth;
use metering::sums::MonthSums;

pub mod closing;
pub mod days;

// The open month. Today is the next day to be taken; once all days of the month are taken, it is the first of the next month.
#[derive(Clone, Copy, Debug, PartialEq, Eq)]
pub struct OpenMonth {
    today: u32,
    month: CalendarMonth,
    sums: MonthSums,
    ghost begun: { first_counted month ≡ true },
    ghost tied: { today ≡ first_day month.year month.month + (sums_of sums).days },
    ghost inside: { (sums_of sums).days ≤ month_length month.year month.month },
    ghost ended: { today ≤ last_day },
}
