// A month's figures with all their limits around them.
ghost use Rattle.std.specs.Prelude.{◌≡◌};
ghost use Rattle.billing.specs.Limits.{Within};

use crate::figures::Figures;

pub mod make;

// A month whose figures keep their limits.
#[derive(Clone, Copy, Debug, PartialEq, Eq)]
pub struct Month {
    figures: Figures,
    ghost within: { Within figures },
}
