// A demand within the limit that every question to a basis keeps.
ghost use Rattle.std.specs.Prelude.{◌≤◌};

pub mod make;

// A demand of at most 100,000 kW. (Below this crate the limit is one of several in a test, or bounds a plain figure of a month.)
#[derive(Clone, Copy, Debug, PartialEq, Eq, PartialOrd, Ord)]
pub struct Kilowatts {
    kw: u32,
    ghost within: { kw ≤ 100000 },
}
