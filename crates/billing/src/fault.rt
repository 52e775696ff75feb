// The one refusal of the tariff's own calls.
ghost use Rattle.std.specs.Prelude.{◌≡◌};
ghost use Rattle.billing.specs.Faults.{number_of};

// A term or figure outside its limits.
#[derive(Clone, Copy, Debug, PartialEq, Eq)]
pub enum TermsFault {
    OutsideLimits = 1,
}

impl TermsFault {
    // The refusal's number. A method, since `number` says more than From<TermsFault> for u32 would.
    pub fn number(self) -> u32
        ensures { result ≡ number_of self }
    {
        self as u32
    }
}
