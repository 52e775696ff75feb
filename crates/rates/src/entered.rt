// A bill of another schedule, entered at the closing of each month.
ghost use Rattle.std.specs.Prelude.{◌≤◌};
ghost use Rattle.billing.specs.Schedules.{code_of};
ghost use Rattle.billing.specs.declared.schedule.Schedule.{Schedule};

use billing::schedule::Schedule;

pub mod make;

// A rate whose bill is what is entered; its schedule is one of those with codes 2 to 9.
#[derive(Clone, Copy, Debug, PartialEq, Eq)]
pub struct Entered {
    schedule: Schedule,
    ghost other: { 2 ≤ code_of schedule },
}
