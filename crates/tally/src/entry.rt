// What a call hands over in plain numbers: notices and firm demands.
ghost use Rattle.std.specs.Prelude.{◌≡◌};
ghost use Rattle.metering.specs.Acceptance.{acceptance};
ghost use Rattle.tally.specs.Entries.{notice_of, notices_of, elected};

use calendar::date::Date;
use metering::accept::{NoticeFault, accept_all};
use metering::firm::FirmDemands;
use metering::notice::{Announced, Notice};

// Stands for a season that is not elected: a call hands over plain numbers, and this is its format for none.
const NOT_ELECTED: u32 = u32::MAX;

// Stands for a notice that was not released, in the same format.
const NOT_RELEASED: i16 = i16::MIN;

// A notice by its minute of the day, below 0 for the evening before, and the minute of its release, -32,768 where it was not released.
#[derive(Clone, Copy, Debug, PartialEq, Eq)]
pub struct NoticeEntry {
    pub minute: i16,
    pub release: i16,
}

// The firm demand that a number stands for; 4,294,967,295 is none. A function, since Rust allows no From between two types of std.
pub fn firm_demand(number: u32) -> Option<u32>
    ensures { result ≡ elected number }
{
    (number != NOT_ELECTED).then_some(number)
}

// The notice that the numbers stand for.
impl From<NoticeEntry> for Notice {
    ghost from_gives = { λ entry n. n ≡ notice_of entry };

    fn from(entry: NoticeEntry) -> Notice {
        Notice {
            minute: i32::from(entry.minute),
            release: (entry.release != NOT_RELEASED).then_some(i32::from(entry.release)),
        }
    }
}

impl Announced for NoticeEntry {
    ghost notice = { notice_of };

    fn notice(&self) -> Notice {
        Notice::from(*self)
    }
}

// Whether a day may have these notices under these firm demands, and if not, why.
pub fn accept_entries(
    date: &Date,
    firm: &FirmDemands,
    entries: &[NoticeEntry],
) -> Result<(), NoticeFault>
    ensures { result ≡ acceptance date.now firm.now (notices_of entries.now) }
{
    accept_all(date, firm, entries)
}
