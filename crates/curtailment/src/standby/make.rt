// Making standby terms, which refuses those outside their limits, and the kW that they speak of.
ghost use Rattle.std.specs.Prelude.{◌≡◌, ◌≤◌};
ghost use Rattle.billing.specs.Months.{map_ok};
ghost use Rattle.curtailment.specs.Asking.{kw_of};
ghost use Rattle.curtailment.specs.Standing.{terms_of, agreed, supplementary, available, failing};

use crate::kilowatts::Kilowatts;
use crate::standby::{Standby, StandbyTerms};
use billing::fault::TermsFault;
use calendar::season::SeasonKind;

impl Standby {
    // A basis of these terms, or the refusal of terms outside their limits.
    pub fn new(terms: StandbyTerms) -> Result<Standby, TermsFault>
        ensures { map_ok terms_of result ≡ agreed terms }
    {
        let summer = Kilowatts::try_from(terms.summer)?;
        let winter = Kilowatts::try_from(terms.winter)?;
        let standby = Kilowatts::try_from(terms.standby)?;
        let combined = Kilowatts::try_from(terms.combined)?;
        let hours = terms.hours;
        if hours > 8760 || terms.combined > terms.summer + terms.standby {
            return Err(TermsFault::OutsideLimits);
        }
        Ok(Standby {
            summer,
            winter,
            standby,
            combined,
            hours,
        })
    }

    // The supplementary demand that counts in a season.
    pub(crate) fn supplementary(&self, season: SeasonKind) -> Kilowatts
        ensures { kw_of result ≡ supplementary (terms_of self.now) season }
    {
        match season {
            SeasonKind::Summer => self.summer,
            SeasonKind::Winter => self.summer.max(self.winter),
        }
    }

    // The standby kW that a firm demand makes available.
    pub(crate) fn available(&self, season: SeasonKind, firm: Kilowatts) -> Kilowatts
        ensures { kw_of result ≡ available (terms_of self.now) season (kw_of firm) }
    {
        if firm <= self.supplementary(season) {
            self.standby
        } else {
            self.combined.above(firm)
        }
    }

    // The kW that fail at a demand, in 3,500ths.
    pub(crate) fn failing(&self, season: SeasonKind, firm: Kilowatts, demand: Kilowatts) -> u64
        ensures value { result ≡ failing (terms_of self.now) (supplementary (terms_of self.now) season) (kw_of firm) (kw_of demand) }
        ensures bound { result ≤ 1226000000 }
    {
        let hours = u64::from(self.hours);
        let limit = self.supplementary(season);
        if demand <= firm {
            0
        } else if demand <= limit {
            3500 * u64::from(demand.above(firm).kw())
        } else if limit <= firm {
            hours * u64::from(demand.above(firm).kw())
        } else {
            3500 * u64::from(limit.above(firm).kw()) + hours * u64::from(demand.above(limit).kw())
        }
    }
}
