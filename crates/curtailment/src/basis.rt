// What every basis shows: its terms, and what these fix.
ghost use Rattle.std.specs.Prelude.{◌≡◌, ℕ, ◌≤◌, Bool};
ghost use Rattle.billing.specs.Limits.{Within};
ghost use Rattle.billing.specs.Months.{figures_of};
ghost use Rattle.billing.specs.declared.figures.Figures.{Figures};
ghost use Rattle.billing.specs.declared.schedule.Schedule.{Schedule};
ghost use Rattle.calendar.specs.declared.season.SeasonKind.{SeasonKind};
ghost use Rattle.curtailment.specs.Asking.{kw_of, limited, limited_both};

use crate::kilowatts::Kilowatts;
use billing::fault::TermsFault;
use billing::month::Month;
use billing::schedule::Schedule;
use calendar::season::SeasonKind;

// A basis. Its answers are fixed by its terms, which no question alters; money is whole cents.
pub trait Basis {
    // Bases of one kind are equal where their terms are.
    type Terms;

    ghost terms: { Self → Self.Terms };

    // Whether a site under a schedule may choose it.
    ghost serves: { Self.Terms → Schedule → Bool };

    // Whether it admits firm demands, all or none.
    ghost admits: { Self.Terms → Bool };

    // The charge of every month.
    ghost monthly: { Self.Terms → ℕ };

    // The credit of a month at a season and a firm demand.
    ghost credit: { Self.Terms → SeasonKind → Figures → ℕ → ℕ };

    // The charge for a notice of a season at a firm demand and the demand that was reached.
    ghost failure: { Self.Terms → SeasonKind → ℕ → ℕ → ℕ };

    fn serves(&self, schedule: Schedule) -> bool
        ensures { result ≡ serves (terms self.now) schedule };

    fn admits_firm_demand(&self) -> bool
        ensures { result ≡ admits (terms self.now) };

    fn monthly_charge(&self) -> u64
        ensures { result ≡ monthly (terms self.now) };

    // Season and firm demand stay apart, here and in the bases: one comes from the date, the other from the election.

    // The credit of a month at a firm demand.
    fn credit_at(&self, season: SeasonKind, m: &Month, firm: Kilowatts) -> u64
        ensures { result ≡ credit (terms self.now) season (figures_of m.now) (kw_of firm) };

    // The charge for a notice at a firm demand and the demand that was reached.
    fn failure_at(&self, season: SeasonKind, firm: Kilowatts, demand: Kilowatts) -> u64
        ensures { result ≡ failure (terms self.now) season (kw_of firm) (kw_of demand) };

    // The credit of a month; a firm demand above its limit is refused.
    fn credit(&self, season: SeasonKind, m: &Month, firm: u32) -> Result<u64, TermsFault>
        ensures { result ≡ limited firm (credit (terms self.now) season (figures_of m.now) firm) }
    {
        Ok(self.credit_at(season, m, Kilowatts::try_from(firm)?))
    }

    // The charge for a notice; a demand above its limit is refused.
    fn failure_charge(&self, season: SeasonKind, firm: u32, demand: u32) -> Result<u64, TermsFault>
        ensures { result ≡ limited_both firm demand (failure (terms self.now) season firm demand) }
    {
        Ok(self.failure_at(
            season,
            Kilowatts::try_from(firm)?,
            Kilowatts::try_from(demand)?,
        ))
    }

    // No money passes ten million dollars.
    ghost monthly_bounded: { (b : Self) → monthly (terms b) ≤ 1000000000 };

    ghost credit_bounded: { (b : Self) (s : SeasonKind) (m : Figures) (f : ℕ) → Within m → f ≤ 100000 → credit (terms b) s m f ≤ 1000000000 };

    ghost failure_bounded: { (b : Self) (s : SeasonKind) (f q : ℕ) → f ≤ 100000 → q ≤ 100000 → failure (terms b) s f q ≤ 1000000000 };

    // A higher firm demand never gives a higher credit.
    ghost credit_falls: { (b : Self) (s : SeasonKind) (m : Figures) (f g : ℕ) → Within m → f ≤ g → g ≤ 100000 → credit (terms b) s m g ≤ credit (terms b) s m f };
}
