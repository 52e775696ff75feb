// What can be wrong with a worksheet.
ghost use Rattle.std.specs.Prelude.{◌≡◌, Some};
ghost use Rattle.worksheet.specs.Wrongs.{reason};
ghost use Rattle.worksheet.specs.declared.wrong.Wrong.TheVariants.{Code, Limits};

use billing::fault::TermsFault;
use billing::schedule::UnknownCode;
use std::fmt;

// The reasons why a worksheet is not worked out.
#[derive(Clone, Copy, Debug, PartialEq, Eq)]
pub enum Wrong {
    Plan,
    Terms,
    Supply,
    Code,
    Month,
    Readings,
    Missing,
    More,
    Limits,
    Basis,
}

// A term outside its limits is wrong in the first line.
impl From<TermsFault> for Wrong {
    ghost from_gives = { λ _ r. r ≡ Limits };

    fn from(fault: TermsFault) -> Wrong {
        match fault {
            TermsFault::OutsideLimits => Wrong::Limits,
        }
    }
}

// A code that no schedule has.
impl From<UnknownCode> for Wrong {
    ghost from_gives = { λ _ r. r ≡ Code };

    fn from(code: UnknownCode) -> Wrong {
        match code {
            UnknownCode(_) => Wrong::Code,
        }
    }
}

// The reason in words.
impl fmt::Display for Wrong {
    ghost output = { λ w. Some (reason w) };

    fn fmt<W: fmt::Write>(&self, f: &mut fmt::Formatter<W>) -> fmt::Result {
        f.write_str(self.reason())
    }
}

impl Wrong {
    // What is wrong, in words, for who wants the text without a formatter; Display writes it.
    pub fn reason(self) -> &'static str
        ensures { result.now ≡ reason self }
    {
        match self {
            Wrong::Plan => "the first word is not gs3ev, entered, metered or standby",
            Wrong::Terms => "after the plan stand not just its numbers, one space before each",
            Wrong::Supply => "supply is not 1 or 0",
            Wrong::Code => "the schedule code is not 1 to 9",
            Wrong::Month => "the month is not 1 to 12, or the year not 2000 to 2099",
            Wrong::Readings =>
                "a day has not just 48 readings of 0 to 100000 kW, a space between each two",
            Wrong::Missing => "a day is missing",
            Wrong::More => "more lines than the month has days",
            Wrong::Limits => "a term is outside its limits (refusal 1)",
            Wrong::Basis => "the basis is not open to the schedule (refusal 5)",
        }
    }
}
