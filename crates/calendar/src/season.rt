// The two seasons of curtailment, and which of them holds a day.
ghost use Rattle.std.specs.Prelude.{◌≡◌};
ghost use Rattle.calendar.specs.Seasons.{season, season_of, opens, season_first, season_last, credited_season};

use crate::date::{CalendarMonth, Date};

// Summer or winter.
#[derive(Clone, Copy, Debug, PartialEq, Eq)]
pub enum SeasonKind {
    Summer,
    Winter,
}

// One summer or one winter, by its kind and the year in which it began.
#[derive(Clone, Copy, Debug, PartialEq, Eq)]
pub struct Season {
    pub kind: SeasonKind,
    pub year: u32,
}

impl SeasonKind {
    // The season of this kind that began in a year.
    fn begun_in(self, year: u32) -> Season
        ensures { result ≡ season self year }
    {
        Season { kind: self, year }
    }
}

impl Season {
    // The number of the season's first day, 16 May or 1 December; none where that day has none.
    pub fn first_day(&self) -> Option<u32>
        ensures { result ≡ season_first self.now }
    {
        match self.kind {
            SeasonKind::Summer => Date::on(self.year, 5, 16).day_number(),
            SeasonKind::Winter => Date::on(self.year, 12, 1).day_number(),
        }
    }

    // The number of the season's last day, 30 September or 31 March; none where that day has none.
    pub fn last_day(&self) -> Option<u32>
        ensures { result ≡ season_last self.now }
    {
        match self.kind {
            SeasonKind::Summer => Date::on(self.year, 9, 30).day_number(),
            SeasonKind::Winter => Date::on(self.year.checked_add(1)?, 3, 31).day_number(),
        }
    }
}

impl Date {
    // The season that holds the day, if any.
    pub fn season(&self) -> Option<Season>
        ensures { result ≡ season_of self.now }
    {
        match (self.month, self.day) {
            (5, 16..) | (6..=9, _) => Some(SeasonKind::Summer.begun_in(self.year)),
            (12, _) => Some(SeasonKind::Winter.begun_in(self.year)),
            (1..=3, _) => Some(SeasonKind::Winter.begun_in(self.year.saturating_sub(1))),
            _ => None,
        }
    }

    // Whether a season begins on the day.
    pub fn opens_season(&self) -> bool
        ensures { result ≡ opens self.now }
    {
        matches!((self.month, self.day), (5, 16) | (12, 1))
    }
}

impl CalendarMonth {
    // The season to which the month's credit belongs, if any: the one that holds its first day.
    pub fn credited_season(&self) -> Option<Season>
        ensures { result ≡ credited_season self.now }
    {
        Date::on(self.year, self.month, 1).season()
    }
}
