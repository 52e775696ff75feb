// Counting days along places that follow one another: the years from one on, or the months of a year.
ghost use Rattle.std.specs.Prelude.{◌≡◌, ℕ, ◌+◌, ◌-◌, ◌≤◌};
ghost use Rattle.calendar.specs.Dates.{year_length, month_length, total, locate, last_day};

use crate::length::{month_length, year_length};

// Places that follow one another, each with its days.
pub(crate) trait Places {
    ghost length: { Self → ℕ → ℕ };

    fn length(&self, place: u32) -> u32
        ensures { result ≡ length self.now place };
}

// The years.
#[derive(Clone, Copy, Debug, PartialEq, Eq)]
pub(crate) struct Years;

impl Places for Years {
    ghost length = { λ _ y. year_length y };

    fn length(&self, year: u32) -> u32 {
        year_length(year)
    }
}

// The months of a year.
#[derive(Clone, Copy, Debug, PartialEq, Eq)]
pub(crate) struct MonthsOf {
    pub(crate) year: u32,
}

impl Places for MonthsOf {
    ghost length = { λ s m. month_length s.year m };

    fn length(&self, month: u32) -> u32 {
        month_length(self.year, month)
    }
}

// The days of the places from one up to another.
pub(crate) fn days_before<P: Places>(places: &P, first: u32, place: u32) -> u32
    requires order { first ≤ place }
    requires low { total (P.length places.now) first (place - first) ≤ last_day }
    ensures { result ≡ total (P.length places.now) first (place - first) }
{
    let mut days = 0;
    // A `for`: of `map` and `sum` over the range the proof did not close, as the closure calls a method of a type parameter.
    for earlier in first..place {
        days += places.length(earlier);
    }
    days
}

// The place that holds a day, counted from the first place on, and the days of that place before it; the last place holds all that is left.
pub(crate) fn locate<P: Places>(places: &P, first: u32, last: u32, day: u32) -> (u32, u32)
    requires { first ≤ last }
    ensures value { result ≡ locate (P.length places.now) (last - first) first day }
    ensures bound { result.1 ≤ day }
{
    let mut rest = day;
    // A `for`, which ends early with its answer; `try_fold` would hand it over as an error.
    for place in first..last {
        let length = places.length(place);
        if rest < length {
            return (place, rest);
        }
        rest -= length;
    }
    (last, rest)
}
