// What an account counts up: the month that is open with its days, the year's notices, and what a call hands over.
#![tactic(auto)]

pub mod counts;
pub mod entry;
pub mod progress;
