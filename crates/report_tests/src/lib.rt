// Worksheets right and wrong, and what is printed of each.
#![tactic(auto)]

#[cfg(test)]
mod answers;
