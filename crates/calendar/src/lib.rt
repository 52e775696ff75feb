// The calendar: day numbers, dates, months and their lengths, the seasons of curtailment, and a value for each season.
#![tactic(auto)]

pub mod by_season;
mod count;
pub mod date;
pub mod laws;
pub mod length;
pub mod month;
pub mod number;
pub mod season;
