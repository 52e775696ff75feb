// The curtailment prices of a season, from the filed rows.
ghost use Rattle.std.specs.Prelude.{◌≡◌};
ghost use Rattle.billing.specs.Prices.{class_on, filed, Modest};
ghost use Rattle.curtailment.specs.Pricing.{monthly_charge};

use billing::amount::cents;
use billing::price::{MonthClass, Prices};
use calendar::season::SeasonKind;

// The filed prices of a season's credited months.
pub(crate) fn prices(season: SeasonKind) -> Prices
    ensures value { result ≡ filed (class_on season) }
    ensures modest { Modest result }
{
    MonthClass::from(season).prices()
}

// The charge of every month, in cents.
pub(crate) fn monthly_cents() -> u64
    ensures { result ≡ monthly_charge filed }
{
    cents(MonthClass::OctoberToMay.prices().monthly, 1)
}
