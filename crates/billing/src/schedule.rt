// The schedules that a site can be billed under.
ghost use Rattle.std.specs.Prelude.{◌≡◌};
ghost use Rattle.billing.specs.Schedules.{code_of, schedule_for};

// A schedule; its code counts on from 1 in this order.
#[derive(Clone, Copy, Debug, PartialEq, Eq)]
pub enum Schedule {
    Gs3Ev = 1,
    Five,
    Six,
    SixTs,
    Gs2,
    Gs2T,
    Gs3,
    Gs4,
    Eight,
}

// A code that no schedule has.
#[derive(Clone, Copy, Debug, PartialEq, Eq)]
pub struct UnknownCode(pub u32);

impl Schedule {
    // The schedule's code, 1 to 9. A method, since `code` says more than From<Schedule> for u32 would.
    pub fn code(self) -> u32
        ensures { result ≡ code_of self }
    {
        self as u32
    }
}

// The schedule of a code, if there is one. A table, since Rust turns no number into a variant.
impl TryFrom<u32> for Schedule {
    type Error = UnknownCode;

    ghost try_from_gives = { λ code r. r ≡ schedule_for code };

    fn try_from(code: u32) -> Result<Schedule, UnknownCode> {
        match code {
            1 => Ok(Schedule::Gs3Ev),
            2 => Ok(Schedule::Five),
            3 => Ok(Schedule::Six),
            4 => Ok(Schedule::SixTs),
            5 => Ok(Schedule::Gs2),
            6 => Ok(Schedule::Gs2T),
            7 => Ok(Schedule::Gs3),
            8 => Ok(Schedule::Gs4),
            9 => Ok(Schedule::Eight),
            _ => Err(UnknownCode(code)),
        }
    }
}
