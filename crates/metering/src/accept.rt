// Which notices a day may have: the refusals 11 and 12.
ghost use Rattle.std.specs.Prelude.{◌≡◌, map};
ghost use Rattle.metering.specs.Acceptance.{acceptance, number_of, placed, in_place, orderly, earliest, end_of};

use crate::firm::FirmDemands;
use crate::notice::{Announced, Notice};
use calendar::by_season::BySeason;
use calendar::date::Date;
use calendar::season::SeasonKind;

// Why a day's notices are refused.
#[derive(Clone, Copy, Debug, PartialEq, Eq)]
pub enum NoticeFault {
    // a notice outside both seasons, or in one that is not elected
    NotElected = 11,
    // more than four notices, or one out of its place
    OutOfPlace = 12,
}

impl NoticeFault {
    // The refusal's number. A method, since `number` says more than From<NoticeFault> for u32 would.
    pub fn number(self) -> u32
        ensures { result ≡ number_of self }
    {
        self as u32
    }
}

impl Notice {
    // The end of its period.
    fn end(&self, season: SeasonKind) -> i32
        ensures { result ≡ end_of season self.now }
    {
        self.period(season).map_or(self.minute, |period| period.end)
    }

    // Whether it stands in its place: from `low` on, before the last window's end, and released after it came, if at all.
    fn is_placed(&self, season: SeasonKind, low: i32) -> bool
        ensures { result ≡ placed season low self.now }
    {
        low <= self.minute
            && self.period(season).is_some()
            && self.release.is_none_or(|release| self.minute < release)
    }
}

// How early on the evening before a notice may come.
const EVE: BySeason<i32> = BySeason {
    summer: -180,
    winter: -120,
};

// The earliest minute of a notice on a day of a season, which is 0 on the season's first day.
fn earliest_minute(season: SeasonKind, date: &Date) -> i32
    ensures { result ≡ earliest season date.now }
{
    if date.opens_season() {
        return 0;
    }
    EVE.of_season(season)
}

// Whether each notice stands in its place, none before the end of the one before it.
fn are_placed<N: Announced>(season: SeasonKind, low: i32, notices: &[N]) -> bool
    ensures { result ≡ in_place season low low (map N.notice notices.now) }
{
    let mut after = low;
    // A `for`, since each notice's end is carried to the next; `all` would have to alter `after` from its closure.
    for announced in notices {
        let notice = announced.notice();
        if !notice.is_placed(season, low) || notice.minute < after {
            return false;
        }
        after = notice.end(season);
    }
    true
}

// Whether there are at most four notices, each in its place.
fn are_orderly<N: Announced>(season: SeasonKind, date: &Date, notices: &[N]) -> bool
    ensures { result ≡ orderly season date.now (map N.notice notices.now) }
{
    notices.len() <= 4 && are_placed(season, earliest_minute(season, date), notices)
}

// Whether a day may have what stands for these notices under these firm demands, and if not, why.
pub fn accept_all<N: Announced>(
    date: &Date,
    firm: &FirmDemands,
    notices: &[N],
) -> Result<(), NoticeFault>
    ensures { result ≡ acceptance date.now firm.now (map N.notice notices.now) }
{
    if notices.is_empty() {
        return Ok(());
    }
    let season = date.season().ok_or(NoticeFault::NotElected)?;
    firm.of_season(season.kind).ok_or(NoticeFault::NotElected)?;
    if !are_orderly(season.kind, date, notices) {
        return Err(NoticeFault::OutOfPlace);
    }
    Ok(())
}

// Whether a day may have these notices under these firm demands, and if not, why.
pub fn accept(date: &Date, firm: &FirmDemands, notices: &[Notice]) -> Result<(), NoticeFault>
    ensures { result ≡ acceptance date.now firm.now notices.now }
{
    accept_all(date, firm, notices)
}
