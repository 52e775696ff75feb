// What curtailment earns and costs: the basis trait, the metered and the standby basis, and none.
#![tactic(auto)]

pub mod basis;
pub mod kilowatts;
pub mod metered;
pub mod none;
pub mod price;
pub mod standby;
