// A worksheet worked out and reported: what is billed and credited, and what is printed of it.
#![tactic(auto)]

pub mod print;
pub mod work;
