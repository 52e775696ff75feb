// Half-hour readings and notices: curtailment windows and periods, the figures of a day and the sums of a month, and which notices a day may have.
#![tactic(auto)]

pub mod accept;
pub mod day;
pub mod firm;
pub mod measured;
pub mod notice;
pub mod period;
pub mod sums;
