// The laws of the calendar, and the last day up to which they hold.
ghost use Rattle.std.specs.Prelude.{◌≡◌};
ghost use Rattle.calendar.specs.Dates.{last_day};
ghost use Rattle.calendar.specs.Laws.{CalendarLaws};

use crate::number;

// Every day number has its date, its month and its season as the laws say.
fn laws_stand()
    ensures { CalendarLaws }
{}

// The last day with a number, 1 January 2100. The laws of the calendar hold up to it.
pub fn last_day_number() -> u32
    ensures value { result ≡ last_day }
    ensures laws { CalendarLaws }
{
    laws_stand();
    number::LAST_DAY
}
