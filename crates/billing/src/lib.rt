// What every rate and basis rests on: amounts and rounding, price rows, schedules, the highest item of a run, a few items in a fixed place, a month's figures.
#![tactic(auto)]

pub mod amount;
pub mod fault;
pub mod few;
pub mod figures;
pub mod highest;
pub mod month;
pub mod price;
pub mod schedule;
