// What is printed: the report of a worksheet, or the line that is wrong and why.
ghost use Rattle.std.specs.Prelude.{◌≡◌, ◌++◌, true, IfOk, IfErr, Some, string_bytes};
ghost use Rattle.report.specs.Reports.{amount, energy_text, way, way_of, credit_line, report_of, fault_line, error_text, Answers, Refuses};
ghost use Rattle.report.specs.declared.print.ReportError.TheVariants.{Worksheet, OutOfMemory};

use crate::work::{Worked, work};
use billing::amount::cents;
use billing::figures::Figures;
use rates::gs3ev::Billing;
use std::alloc::{AllocError, Global};
use std::error::Error;
use std::fmt;
use worksheet::header::RateTerms;
use worksheet::sheet::{Fault, Sheet, read_sheet};

// An amount in cents, shown as dollars with two digits of cents.
#[derive(Clone, Copy, Debug, PartialEq, Eq)]
pub struct Dollars(pub u64);

impl fmt::Display for Dollars {
    ghost output = { λ d. Some (amount d.0) };

    fn fmt<W: fmt::Write>(&self, f: &mut fmt::Formatter<W>) -> fmt::Result {
        write!(f, "{}.{}{}", self.0 / 100, self.0 / 10 % 10, self.0 % 10)
    }
}

// A sum of half-hour readings in kW, shown in kWh with a tenth.
#[derive(Clone, Copy, Debug, PartialEq, Eq)]
pub struct Energy(pub u32);

impl fmt::Display for Energy {
    ghost output = { λ e. Some (energy_text e.0) };

    fn fmt<W: fmt::Write>(&self, f: &mut fmt::Formatter<W>) -> fmt::Result {
        write!(f, "{}.{}", self.0 / 2, self.0 % 2 * 5)
    }
}

// How the month was billed.
#[derive(Clone, Copy, Debug, PartialEq, Eq)]
pub enum Way {
    NonDemand,
    Demand,
    Entered,
}

impl Way {
    // GS-3EV bills by demand or not; any other bill is entered.
    pub(crate) fn of_month(rate: &RateTerms, figures: &Figures) -> Way
        ensures { result ≡ way_of rate.now figures.now }
    {
        match rate {
            RateTerms::Entered(_) => Way::Entered,
            RateTerms::Gs3ev(_) => match Billing::of_month(figures) {
                Billing::NonDemand => Way::NonDemand,
                Billing::Demand => Way::Demand,
            },
        }
    }
}

impl fmt::Display for Way {
    ghost output = { λ w. Some (way w) };

    fn fmt<W: fmt::Write>(&self, f: &mut fmt::Formatter<W>) -> fmt::Result {
        f.write_str(match self {
            Way::NonDemand => "non-demand",
            Way::Demand => "demand",
            Way::Entered => "entered",
        })
    }
}

// The credit in cents, shown as a line where there is a basis.
#[derive(Clone, Copy)]
struct CreditLine(Option<u64>);

impl fmt::Display for CreditLine {
    ghost output = { λ c. Some (credit_line c.0) };

    fn fmt<W: fmt::Write>(&self, f: &mut fmt::Formatter<W>) -> fmt::Result {
        match self.0 {
            Some(credit) => write!(f, "CREDIT {}\n", Dollars(credit)),
            None => Ok(()),
        }
    }
}

// A worksheet that was worked out, shown as its report.
#[derive(Clone, Copy)]
struct Report<'a> {
    sheet: &'a Sheet,
    worked: &'a Worked,
}

impl fmt::Display for Report<'_> {
    ghost output = { λ r. Some (report_of r.sheet.now r.worked.now) };

    fn fmt<W: fmt::Write>(&self, f: &mut fmt::Formatter<W>) -> fmt::Result {
        let figures = &self.sheet.figures;
        let worked = self.worked;
        let way = Way::of_month(&self.sheet.header.rate, figures);
        let charges = Dollars(cents(worked.charges, 1));
        let floor = Dollars(cents(worked.floor, 1));
        write!(
            f,
            "MONTH {} OF {} DAYS\n",
            self.sheet.header.month, figures.days
        )?;
        write!(
            f,
            "ENERGY {} KWH\nDEMAND {} KW\n",
            Energy(figures.energy),
            figures.peak
        )?;
        write!(
            f,
            "BILLING {way}\nCHARGES {charges}\nFLOOR {floor}\nBILL {}\n",
            Dollars(worked.bill)
        )?;
        write!(f, "{}", CreditLine(worked.credit))
    }
}

// A fault, shown as the whole line that is printed of a worksheet that is wrong, with its end.
#[derive(Clone, Copy, Debug, PartialEq, Eq)]
pub struct FaultLine(pub Fault);

impl fmt::Display for FaultLine {
    ghost output = { λ l. Some (fault_line l.0) };

    fn fmt<W: fmt::Write>(&self, f: &mut fmt::Formatter<W>) -> fmt::Result {
        write!(f, "{}\n", self.0)
    }
}

// Why there is no report: the worksheet is wrong, or memory ran out.
#[derive(Clone, Copy, Debug, PartialEq, Eq)]
pub enum ReportError {
    Worksheet(Fault),
    OutOfMemory,
}

impl From<Fault> for ReportError {
    ghost from_gives = { λ fault e. e ≡ Worksheet fault };

    fn from(fault: Fault) -> ReportError {
        Self::Worksheet(fault)
    }
}

impl From<AllocError> for ReportError {
    ghost from_gives = { λ _ e. e ≡ OutOfMemory };

    fn from(_error: AllocError) -> ReportError {
        Self::OutOfMemory
    }
}

impl fmt::Display for ReportError {
    ghost output = { λ e. Some (error_text e) };

    fn fmt<W: fmt::Write>(&self, f: &mut fmt::Formatter<W>) -> fmt::Result {
        match self {
            ReportError::Worksheet(fault) => write!(f, "{fault}"),
            ReportError::OutOfMemory => write!(f, "memory allocation failed"),
        }
    }
}

impl Error for ReportError {}

// The report of a worksheet's text, or why there is none.
pub fn answer_to(heap: Global, text: &[u8]) -> Result<String, ReportError>
    ensures report { IfOk result (λ s. Answers text.now true (string_bytes s)) }
    ensures refusal { IfErr result (Refuses text.now) }
{
    let sheet = read_sheet(text)?;
    let worked = work(&sheet).map_err(|wrong| Fault { line: 1, wrong })?;
    let report = Report {
        sheet: &sheet,
        worked: &worked,
    };
    Ok(format!(in heap; "{report}")?)
}
