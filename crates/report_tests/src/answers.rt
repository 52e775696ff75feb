// The report of a worksheet, or the line that is wrong and why; the amounts are those of `tools/expected.py`.
use report::print::{FaultLine, ReportError, answer_to};
use std::alloc::{AllocError, Global};
use std::process::Abort;
use std::test::Fail;

const FLAT: &str =
    "1000 1000 1000 1000 1000 1000 1000 1000 1000 1000 1000 1000 1000 1000 1000 1000 1000 1000 1000 1000 1000 1000 1000 1000 1000 1000 1000 1000 1000 1000 1000 1000 1000 1000 1000 1000 1000 1000 1000 1000 1000 1000 1000 1000 1000 1000 1000 1000";

const HIGH: &str =
    "100001 1000 1000 1000 1000 1000 1000 1000 1000 1000 1000 1000 1000 1000 1000 1000 1000 1000 1000 1000 1000 1000 1000 1000 1000 1000 1000 1000 1000 1000 1000 1000 1000 1000 1000 1000 1000 1000 1000 1000 1000 1000 1000 1000 1000 1000 1000 1000";

// A worksheet with its first line, so many days of 1,000 kW, and a last line.
fn sheet(heap: Global, first: &str, days: u32, last: &str) -> Result<String, AllocError> {
    let mut text = String::from_str(heap, first)?;
    // a `for`, since each line may want memory
    for _ in 0..days {
        text.push_str("\n")?;
        text.push_str(FLAT)?;
    }
    text.push_str(last)?;
    Ok(text)
}

// What is printed of a worksheet: its report, or the line that is wrong.
fn printed(heap: Global, text: &str) -> Result<String, ReportError> {
    match answer_to(heap, text.as_bytes()) {
        Err(ReportError::Worksheet(fault)) => Ok(format!(in heap; "{}", FaultLine(fault))?),
        answer => answer,
    }
}

// A first line, how many days follow it, what stands last, and what is printed.
type Case<'a> = (&'a str, u32, &'a str, &'a str);

fn all_say(rt: &impl Abort, heap: Global, cases: &[Case]) -> Result<(), Fail> {
    // a `for`, since `?` ends it
    for &(first, days, last, expected) in cases {
        let text = printed(heap, sheet(heap, first, days, last)?.as_str())?;
        assert!(rt; text.as_str() == expected);
    }
    Ok(())
}

const METERED: &str =
    "MONTH 2024-06 OF 30 DAYS\nENERGY 720000.0 KWH\nDEMAND 1000 KW\nBILLING entered\nCHARGES 10000.00\nFLOOR 0.00\nBILL 10000.00\nCREDIT 2171.40\n";

const DEMAND: &str =
    "MONTH 2024-06 OF 30 DAYS\nENERGY 720000.0 KWH\nDEMAND 1000 KW\nBILLING demand\nCHARGES 16982.99\nFLOOR 142.76\nBILL 16982.99\n";

const OCTOBER: &str =
    "MONTH 2024-10 OF 31 DAYS\nENERGY 744000.0 KWH\nDEMAND 1000 KW\nBILLING entered\nCHARGES 10000.00\nFLOOR 0.00\nBILL 10000.00\nCREDIT 0.00\n";

#[test]
fn reports(rt: HostRuntime) -> Result<(), Fail> {
    let heap = rt.alloc();
    let cases = [
        ("metered 2024 6 7 1000000 0 400", 30, "\n", METERED),
        ("metered 2024 6 7 1000000 0 400", 30, "", METERED),
        ("gs3ev 2024 6 1 0 0 0", 30, "\n", DEMAND),
        ("metered 2024 10 7 1000000 0 400", 31, "\n", OCTOBER),
    ];
    all_say(&rt, heap, &cases)
}

const PLAN: &str = "line 1: the first word is not gs3ev, entered, metered or standby\n";

const TERMS: &str = "line 1: after the plan stand not just its numbers, one space before each\n";

const MONTH: &str = "line 1: the month is not 1 to 12, or the year not 2000 to 2099\n";

#[test]
fn first_lines_that_are_wrong(rt: HostRuntime) -> Result<(), Fail> {
    let heap = rt.alloc();
    let cases = [
        ("", 0, "", PLAN),
        ("gs3", 0, "", PLAN),
        ("gs3ev", 0, "", TERMS),
        ("gs3ev 2024 6 1 0 0", 30, "\n", TERMS),
        ("gs3ev 2024 6 1 0 0 0 0", 30, "\n", TERMS),
        ("gs3ev 2024  6 1 0 0 0", 30, "\n", TERMS),
        ("gs3ev 2024 6 1 0 0 4294967296", 30, "\n", TERMS),
        (
            "gs3ev 2024 6 2 0 0 0",
            30,
            "\n",
            "line 1: supply is not 1 or 0\n",
        ),
        (
            "entered 2024 6 10 0 0",
            30,
            "\n",
            "line 1: the schedule code is not 1 to 9\n",
        ),
        ("gs3ev 2024 13 1 0 0 0", 30, "\n", MONTH),
        ("gs3ev 2100 1 1 0 0 0", 31, "\n", MONTH),
    ];
    all_say(&rt, heap, &cases)
}

const READINGS: &str =
    "line 31: a day has not just 48 readings of 0 to 100000 kW, a space between each two\n";

#[test]
fn days_that_are_wrong(rt: HostRuntime) -> Result<(), Fail> {
    let heap = rt.alloc();
    let cases = [
        (
            "gs3ev 2024 6 1 0 0 0",
            29,
            "",
            "line 31: a day is missing\n",
        ),
        ("gs3ev 2024 6 1 0 0 0", 29, "\n", READINGS),
        ("gs3ev 2024 6 1 0 0 0", 29, "\n1000 1000", READINGS),
        (
            "gs3ev 2024 6 1 0 0 0",
            30,
            "\n\n",
            "line 32: more lines than the month has days\n",
        ),
    ];
    all_say(&rt, heap, &cases)?;
    let mut text = sheet(heap, "gs3ev 2024 6 1 0 0 0", 29, "\n")?;
    text.push_str(HIGH)?;
    let answer = printed(heap, text.as_str())?;
    assert!(rt; answer.as_str() == READINGS);
    Ok(())
}

const LIMITS: &str = "line 1: a term is outside its limits (refusal 1)\n";

const BASIS: &str = "line 1: the basis is not open to the schedule (refusal 5)\n";

#[test]
fn terms_that_are_refused(rt: HostRuntime) -> Result<(), Fail> {
    let heap = rt.alloc();
    let cases = [
        ("gs3ev 2024 6 1 100001 0 0", 30, "\n", LIMITS),
        ("gs3ev 2024 6 1 0 100001 0", 30, "\n", LIMITS),
        ("gs3ev 2024 6 1 0 0 1000001", 30, "\n", LIMITS),
        ("entered 2024 6 7 4000000001 0", 30, "\n", LIMITS),
        ("entered 2024 6 1 0 0", 30, "\n", LIMITS),
        ("metered 2024 6 7 0 0 100001", 30, "\n", LIMITS),
        ("metered 2024 6 9 0 0 400", 30, "\n", BASIS),
        (
            "standby 2024 6 0 0 1000 800 500 1501 1750 0 600",
            30,
            "\n",
            LIMITS,
        ),
    ];
    all_say(&rt, heap, &cases)
}
