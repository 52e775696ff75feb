// What a site is billed for a month: the rate trait, GS-3EV, an entered bill, and a kWh rider over any rate.
#![tactic(auto)]

pub mod bill;
pub mod entered;
pub mod gs3ev;
pub mod rate;
pub mod rider;
