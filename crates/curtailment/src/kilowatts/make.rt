// Making demands, which refuses those above the limit, and what they tell.
ghost use Rattle.std.specs.Prelude.{◌≡◌, ◌-◌};
ghost use Rattle.billing.specs.Months.{map_ok};
ghost use Rattle.curtailment.specs.Asking.{kw_of, limited};

use crate::kilowatts::Kilowatts;
use billing::fault::TermsFault;

// A demand above 100,000 kW is refused.
impl TryFrom<u32> for Kilowatts {
    type Error = TermsFault;

    ghost try_from_gives = { λ kw made. map_ok kw_of made ≡ limited kw kw };

    fn try_from(kw: u32) -> Result<Kilowatts, TermsFault> {
        if kw > 100_000 {
            return Err(TermsFault::OutsideLimits);
        }
        Ok(Kilowatts { kw })
    }
}

impl Kilowatts {
    // Its number of kW.
    pub fn kw(self) -> u32
        ensures { result ≡ kw_of self }
    {
        self.kw
    }

    // The kW by which it exceeds another demand; none where it does not.
    pub fn above(self, other: Kilowatts) -> Kilowatts
        ensures { kw_of result ≡ kw_of self - kw_of other }
    {
        Kilowatts {
            kw: self.kw.saturating_sub(other.kw),
        }
    }
}
