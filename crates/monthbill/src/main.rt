// Bills one month: reads a worksheet from standard input and prints its report.
#![tactic(auto)]

use report::print::{FaultLine, ReportError, answer_to};
use std::io::Read;
use std::process::ExitCode;

// Prints the report; a worksheet that is wrong gets the line and the reason on standard error, and status 1.
fn main(rt: HostRuntime) -> anyhow::Result<ExitCode> {
    let mut text = Vec::new(rt.alloc());
    let _ = rt.stdin().read_to_end(&mut text)?;
    // A match, since the three answers end differently.
    match answer_to(rt.alloc(), text.as_slice()) {
        Ok(report) => {
            print!(rt; "{report}")?;
            Ok(ExitCode::SUCCESS)
        }
        Err(ReportError::Worksheet(fault)) => {
            eprint!(rt; "{}", FaultLine(fault))?;
            Ok(ExitCode::FAILURE)
        }
        Err(error) => Err(error.into()),
    }
}
