// The standby basis: the terms of a plant with generation of its own.
ghost use Rattle.std.specs.Prelude.{◌+◌, ◌≤◌};
ghost use Rattle.curtailment.specs.Asking.{kw_of};

use crate::kilowatts::Kilowatts;

pub mod make;
pub mod money;

// The contract figures: demands in kW, and the contract available hours of a year.
#[derive(Clone, Copy, Debug, PartialEq, Eq)]
pub struct StandbyTerms {
    // contract summer and winter supplementary demand
    pub summer: u32,
    pub winter: u32,
    // standby demand
    pub standby: u32,
    // contract supplementary-standby demand
    pub combined: u32,
    // contract available hours
    pub hours: u32,
}

// Terms within their limits, whose combined demand is at most the summer and the standby demand together.
#[derive(Clone, Copy, Debug, PartialEq, Eq)]
pub struct Standby {
    summer: Kilowatts,
    winter: Kilowatts,
    standby: Kilowatts,
    combined: Kilowatts,
    hours: u32,
    ghost year: { hours ≤ 8760 },
    ghost covered: { kw_of combined ≤ kw_of summer + kw_of standby },
}
