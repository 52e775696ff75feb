// Why a call is refused.
ghost use Rattle.std.specs.Prelude.{◌≡◌};
ghost use Rattle.account.specs.Faults.{number_of};
ghost use Rattle.account.specs.declared.fault.AccountFault.TheVariants.{Notices, Terms};

use billing::fault::TermsFault;
use metering::accept::NoticeFault;

// A refusal of a call on an account; a refusal of the terms or of a day's notices is carried inside.
#[derive(Clone, Copy, Debug, PartialEq, Eq)]
pub enum AccountFault {
    Terms(TermsFault),
    AlreadyOpen,
    NotMonthStart,
    FirmDemandTooHigh,
    ScheduleNotServed,
    FirmDemandNotAdmitted,
    Unopened,
    MonthNotClosed,
    NotToday,
    Readings,
    Notices(NoticeFault),
    TooManyNotices,
    LedgerFull,
    DaysMissing,
    ClosingFigures,
    NoSuchMonth,
    NoStatementLeft,
    BufferTooShort,
}

impl From<TermsFault> for AccountFault {
    ghost from_gives = { λ e r. r ≡ Terms e };

    fn from(e: TermsFault) -> AccountFault {
        AccountFault::Terms(e)
    }
}

impl From<NoticeFault> for AccountFault {
    ghost from_gives = { λ e r. r ≡ Notices e };

    fn from(e: NoticeFault) -> AccountFault {
        AccountFault::Notices(e)
    }
}

impl AccountFault {
    // The refusal's number. A table, since two cases carry a refusal of their own and so have no discriminants.
    pub fn number(self) -> u32
        ensures { result ≡ number_of self }
    {
        match self {
            AccountFault::Terms(fault) => fault.number(),
            AccountFault::AlreadyOpen => 2,
            AccountFault::NotMonthStart => 3,
            AccountFault::FirmDemandTooHigh => 4,
            AccountFault::ScheduleNotServed => 5,
            AccountFault::FirmDemandNotAdmitted => 6,
            AccountFault::Unopened => 7,
            AccountFault::MonthNotClosed => 8,
            AccountFault::NotToday => 9,
            AccountFault::Readings => 10,
            AccountFault::Notices(fault) => fault.number(),
            AccountFault::TooManyNotices => 13,
            AccountFault::LedgerFull => 14,
            AccountFault::DaysMissing => 19,
            AccountFault::ClosingFigures => 20,
            AccountFault::NoSuchMonth => 21,
            AccountFault::NoStatementLeft => 22,
            AccountFault::BufferTooShort => 23,
        }
    }
}
