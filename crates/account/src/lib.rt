// The account of a site: its ledger, its calls, and what each of them posts.
#![tactic(auto)]

pub mod fault;
pub mod kept;
pub mod ledger;
