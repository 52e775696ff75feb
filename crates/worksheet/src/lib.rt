// A month's worksheet as text: the plan, month and terms in the first line, then a line of readings for each day.
#![tactic(auto)]

pub mod header;
mod scan;
pub mod sheet;
pub mod wrong;
