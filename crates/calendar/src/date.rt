// Dates and calendar months.
ghost use Rattle.std.specs.Prelude.{Some};
ghost use Rattle.calendar.specs.Dates.{month_text};

use std::fmt;

// A day of the calendar.
#[derive(Clone, Copy, Debug, PartialEq, Eq, PartialOrd, Ord)]
pub struct Date {
    pub year: u32,
    pub month: u32,
    pub day: u32,
}

// A calendar month with its year.
#[derive(Clone, Copy, Debug, PartialEq, Eq, PartialOrd, Ord)]
pub struct CalendarMonth {
    pub year: u32,
    pub month: u32,
}

// The year, a dash, and the tens and ones of the month.
impl fmt::Display for CalendarMonth {
    ghost output = { λ m. Some (month_text m) };

    fn fmt<W: fmt::Write>(&self, f: &mut fmt::Formatter<W>) -> fmt::Result {
        write!(f, "{}-{}{}", self.year, self.month / 10, self.month % 10)
    }
}
