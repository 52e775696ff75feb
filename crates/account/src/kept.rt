// The closed months of the season that is running, to which a later raise reaches back.
ghost use Rattle.std.specs.Prelude.{◌≤◌};
ghost use Rattle.billing.specs.Limits.{Within};
ghost use Rattle.billing.specs.declared.figures.Figures.{Figures};

use billing::few::Few;
use billing::figures::Figures;
use calendar::date::CalendarMonth;

pub mod rows;

// A closed month with the credit that it was given, in cents. Its plain figures, since a blank can be written of them.
#[derive(Clone, Copy, Debug, PartialEq, Eq)]
pub(crate) struct SeasonRow {
    pub(crate) month: CalendarMonth,
    pub(crate) figures: Figures,
    pub(crate) credit: u64,
    ghost within: { Within figures },
    ghost modest: { credit ≤ 1000000000 },
}

// The season's closed months, oldest first. No equality and no Debug, since `Few` has none.
#[derive(Clone, Copy)]
pub(crate) struct SeasonRows {
    rows: Few<SeasonRow, 3>,
}
