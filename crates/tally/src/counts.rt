// The notices of a calendar year, by season.
ghost use Rattle.std.specs.Prelude.{◌≡◌};
ghost use Rattle.tally.specs.Counts.{none_in, carried, counting};

use calendar::by_season::BySeason;
use calendar::season::SeasonKind;

// The notices that each season may have in a calendar year.
pub const LIMITS: BySeason<usize> = BySeason {
    summer: 19,
    winter: 13,
};

// How many notices a calendar year has had in its summer, and in its winter months.
#[derive(Clone, Copy, Debug, PartialEq, Eq)]
pub struct NoticeCounts {
    pub year: u32,
    pub notices: BySeason<usize>,
}

impl NoticeCounts {
    // A year without notices so far.
    pub fn none_in(year: u32) -> NoticeCounts
        ensures { result ≡ none_in year }
    {
        NoticeCounts {
            year,
            notices: BySeason {
                summer: 0,
                winter: 0,
            },
        }
    }

    // The counts as they stand in a year: another year than theirs has had none.
    fn carried_to(&self, year: u32) -> NoticeCounts
        ensures { result ≡ carried self.now year }
    {
        if self.year == year {
            *self
        } else {
            NoticeCounts::none_in(year)
        }
    }

    // The counts after a day of a year with so many notices; none where its season then has more than it may.
    pub fn with_day(
        &self,
        year: u32,
        season: Option<SeasonKind>,
        notices: usize,
    ) -> Option<NoticeCounts>
        ensures { result ≡ counting self.now year season notices }
    {
        let counts = self.carried_to(year);
        // No `?`: without a season the counts stay, and are the answer.
        let Some(kind) = season else {
            return Some(counts);
        };
        let more = counts.notices.of_season(kind).checked_add(notices)?;
        if more > LIMITS.of_season(kind) {
            return None;
        }
        Some(NoticeCounts {
            notices: counts.notices.with_season(kind, more),
            ..counts
        })
    }
}
