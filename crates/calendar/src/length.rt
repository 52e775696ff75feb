// The lengths of years and months.
ghost use Rattle.std.specs.Prelude.{◌≡◌, ◌≤◌};
ghost use Rattle.calendar.specs.Dates.{leap, year_length, month_length};

// Whether February has 29 days.
pub(crate) fn is_leap(year: u32) -> bool
    ensures { result ≡ leap year }
{
    year % 4 == 0 && (year % 100 != 0 || year % 400 == 0)
}

// The days of a year.
pub(crate) fn year_length(year: u32) -> u32
    ensures { result ≡ year_length year }
{
    if is_leap(year) { 366 } else { 365 }
}

// The days of a month; none where there is no such month.
pub(crate) fn month_length(year: u32, month: u32) -> u32
    ensures value { result ≡ month_length year month }
    ensures bound { result ≤ 31 }
{
    match month {
        2 => if is_leap(year) { 29 } else { 28 },
        4 | 6 | 9 | 11 => 30,
        1..=12 => 31,
        _ => 0,
    }
}
