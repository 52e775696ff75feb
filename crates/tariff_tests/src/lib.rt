// Boundary cases of the calendar and the tariff as tables; `tools/expected.py` works the expected values independently.
#![tactic(auto)]

#[cfg(test)]
mod bases;
#[cfg(test)]
mod bills;
#[cfg(test)]
mod dates;
#[cfg(test)]
mod months;
#[cfg(test)]
mod notices;
