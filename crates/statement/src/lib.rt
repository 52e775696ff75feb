// The rows of a ledger, and the statement of a month.
#![tactic(auto)]

pub mod row;
