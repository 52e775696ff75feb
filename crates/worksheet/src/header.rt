// The first line of a worksheet: the plan, the month and the terms.
ghost use Rattle.std.specs.Prelude.{◌≡◌};
ghost use Rattle.worksheet.specs.Headers.{schedule_in, plan_for, entering, header_of, gs3ev_header, entered_header, metered_header, standby_header};
ghost use Rattle.billing.specs.Schedules.{schedule_at};
ghost use Rattle.worksheet.specs.Text.{pieces, exactly};

use crate::scan::{cut, numbers};
use crate::wrong::Wrong;
use billing::schedule::Schedule;
use calendar::date::CalendarMonth;
use curtailment::standby::StandbyTerms;

// The plans that a worksheet can name.
#[derive(Clone, Copy, Debug, PartialEq, Eq)]
pub enum Plan {
    Gs3ev,
    Entered,
    Metered,
    Standby,
}

// The terms of GS-3EV: whether the Company supplies the energy, the minimum demand, and the highest peak of the 11 months before.
// 0 stands for no minimum and for no month: it asks for nothing, so no Option says more.
#[derive(Clone, Copy, Debug, PartialEq, Eq)]
pub struct Gs3evTerms {
    // a plain yes or no, on which no other field depends
    pub supply: bool,
    pub minimum: u32,
    pub kept: u32,
}

// The terms of the rate: GS-3EV, or an entered bill of another schedule.
#[derive(Clone, Copy, Debug, PartialEq, Eq)]
pub enum RateTerms {
    Gs3ev(Gs3evTerms),
    Entered(Schedule),
}

impl RateTerms {
    // The schedule that the month is billed under.
    pub fn schedule(&self) -> Schedule
        ensures { result ≡ schedule_in self.now }
    {
        match self {
            RateTerms::Gs3ev(_) => Schedule::Gs3Ev,
            RateTerms::Entered(schedule) => *schedule,
        }
    }
}

// The terms of the basis, with the firm demand of the month's season. No basis is a choice like the others, as in `curtailment`.
#[derive(Clone, Copy, Debug, PartialEq, Eq)]
pub enum BasisTerms {
    NoBasis,
    Metered(u32),
    Standby(StandbyTerms, u32),
}

// What the first line says.
#[derive(Clone, Copy, Debug, PartialEq, Eq)]
pub struct Header {
    pub month: CalendarMonth,
    pub rate: RateTerms,
    // millionths of a dollar for each kWh
    pub rider: u32,
    pub basis: BasisTerms,
    // the cents of an entered bill, and the supplementary billing demand: plain numbers, 0 where the plan has none, as a month takes them
    pub entered: u32,
    pub supplementary: u32,
}

// The plan that a word names. By `==`: of a `match` on byte strings the proof of three arms did not close.
impl TryFrom<&[u8]> for Plan {
    type Error = Wrong;

    ghost try_from_gives = { λ word r. r ≡ plan_for word.now };

    fn try_from(word: &[u8]) -> Result<Plan, Wrong> {
        if word == b"gs3ev".as_slice() {
            return Ok(Plan::Gs3ev);
        }
        if word == b"entered".as_slice() {
            return Ok(Plan::Entered);
        }
        if word == b"metered".as_slice() {
            return Ok(Plan::Metered);
        }
        if word == b"standby".as_slice() {
            return Ok(Plan::Standby);
        }
        Err(Wrong::Plan)
    }
}

// gs3ev YEAR MONTH SUPPLY MINIMUM KEPT RIDER
fn gs3ev_header(line: &[u8]) -> Result<Header, Wrong>
    ensures { result ≡ gs3ev_header (exactly 6 (pieces 32 line.now)) }
{
    let [year, month, supply, minimum, kept, rider] = numbers::<6>(line).ok_or(Wrong::Terms)?;
    if supply > 1 {
        return Err(Wrong::Supply);
    }
    let gs3ev = Gs3evTerms {
        supply: supply == 1,
        minimum,
        kept,
    };
    Ok(Header {
        month: CalendarMonth { year, month },
        rate: RateTerms::Gs3ev(gs3ev),
        rider,
        basis: BasisTerms::NoBasis,
        entered: 0,
        supplementary: 0,
    })
}

// An entered bill of the schedule with a code, if there is one.
fn entering(
    month: CalendarMonth,
    code: u32,
    entered: u32,
    rider: u32,
    basis: BasisTerms,
) -> Result<Header, Wrong>
    ensures { result ≡ entering month entered rider basis (schedule_at code) }
{
    Ok(Header {
        month,
        rate: RateTerms::Entered(Schedule::try_from(code)?),
        rider,
        basis,
        entered,
        supplementary: 0,
    })
}

// entered YEAR MONTH CODE CENTS RIDER
fn entered_header(line: &[u8]) -> Result<Header, Wrong>
    ensures { result ≡ entered_header (exactly 5 (pieces 32 line.now)) }
{
    let [year, month, code, entered, rider] = numbers::<5>(line).ok_or(Wrong::Terms)?;
    entering(
        CalendarMonth { year, month },
        code,
        entered,
        rider,
        BasisTerms::NoBasis,
    )
}

// metered YEAR MONTH CODE CENTS RIDER FIRM. Not one function with the line above: arrays of five and of six numbers are two types.
fn metered_header(line: &[u8]) -> Result<Header, Wrong>
    ensures { result ≡ metered_header (exactly 6 (pieces 32 line.now)) }
{
    let [year, month, code, entered, rider, firm] = numbers::<6>(line).ok_or(Wrong::Terms)?;
    entering(
        CalendarMonth { year, month },
        code,
        entered,
        rider,
        BasisTerms::Metered(firm),
    )
}

// standby YEAR MONTH CENTS RIDER SUMMER WINTER STANDBY COMBINED HOURS SUPPLEMENTARY FIRM
fn standby_header(line: &[u8]) -> Result<Header, Wrong>
    ensures { result ≡ standby_header (exactly 11 (pieces 32 line.now)) }
{
    let [
        year,
        month,
        entered,
        rider,
        summer,
        winter,
        standby,
        combined,
        hours,
        supplementary,
        firm,
    ] = numbers::<11>(line).ok_or(Wrong::Terms)?;
    let plant = StandbyTerms {
        summer,
        winter,
        standby,
        combined,
        hours,
    };
    Ok(Header {
        month: CalendarMonth { year, month },
        rate: RateTerms::Entered(Schedule::Eight),
        rider,
        basis: BasisTerms::Standby(plant, firm),
        entered,
        supplementary,
    })
}

// What the first line says, or what is wrong with it.
pub(crate) fn read_header(line: &[u8]) -> Result<Header, Wrong>
    ensures { result ≡ header_of (pieces 32 line.now) }
{
    let (word, rest) = cut(line, b' ');
    let plan = Plan::try_from(word)?;
    let terms = rest.ok_or(Wrong::Terms)?;
    // One parser for each plan: the enum already is the choice, and a table of functions would say no more.
    match plan {
        Plan::Gs3ev => gs3ev_header(terms),
        Plan::Entered => entered_header(terms),
        Plan::Metered => metered_header(terms),
        Plan::Standby => standby_header(terms),
    }
}
