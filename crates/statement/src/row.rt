// One row of a ledger.
use calendar::date::CalendarMonth;

// What a row posts.
#[derive(Clone, Copy, Debug, PartialEq, Eq)]
pub enum RowKind {
    Base,
    Monthly,
    Credit,
    Reimbursement,
    Failure,
}

// A posting: the day on which it was posted, the month that it concerns, its kind, and its cents, below 0 where the buyer is paid.
#[derive(Clone, Copy, Debug, PartialEq, Eq)]
pub struct Row {
    pub posted: u32,
    pub month: CalendarMonth,
    pub kind: RowKind,
    pub cents: i64,
}
