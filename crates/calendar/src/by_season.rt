// A value for each of the two seasons.
ghost use Rattle.std.specs.Prelude.{◌≡◌};
ghost use Rattle.calendar.specs.BySeasons.{in_season, with_season};

use crate::season::SeasonKind;

// One value in summer, another in winter.
#[derive(Clone, Copy, Debug, PartialEq, Eq)]
pub struct BySeason<T> {
    pub summer: T,
    pub winter: T,
}

impl<T: Copy> BySeason<T> {
    // The value of a season.
    pub fn of_season(&self, season: SeasonKind) -> T
        ensures { result ≡ in_season self.now season }
    {
        match season {
            SeasonKind::Summer => self.summer,
            SeasonKind::Winter => self.winter,
        }
    }

    // The same with another value in a season.
    pub fn with_season(&self, season: SeasonKind, value: T) -> BySeason<T>
        ensures { result ≡ with_season self.now season value }
    {
        match season {
            SeasonKind::Summer => BySeason {
                summer: value,
                ..*self
            },
            SeasonKind::Winter => BySeason {
                winter: value,
                ..*self
            },
        }
    }
}
