// The highest item of a run, the first among equals, for every kind of item that tells its kW.
ghost use Rattle.std.specs.Prelude.{◌≡◌, ℕ, IfSome};
ghost use Rattle.std.specs.Option.{option_map};
ghost use Rattle.billing.specs.Highest.{lower, best, highest, Leads};

// What tells its kW.
pub trait Demand {
    ghost kw: { Self → ℕ };

    fn kw(&self) -> u32
        ensures { result ≡ kw self.now };
}

// A half-hour reading is its kW.
impl Demand for u32 {
    ghost kw = { λ n. n };

    fn kw(&self) -> u32 {
        *self
    }
}

// The highest of an item and those after it, the first among equals.
fn highest_from<'a, T: Demand>(first: &'a T, rest: &'a [T]) -> &'a T
    ensures { result.now ≡ best (lower T.Demand.kw) first.now rest.now }
{
    rest.iter().fold(first, |best, item| {
        if best.kw() < item.kw() { item } else { best }
    })
}

// The highest item, the first among equals; none of an empty run.
#[tactic(auto, using(crate::proofs::Tops::best_by_kw))]
pub fn highest<T: Demand>(items: &[T]) -> Option<&T>
    ensures value { option_map (λ x. x.now) result ≡ highest (lower T.Demand.kw) items.now }
    ensures leads { IfSome result (λ x. Leads (lower T.Demand.kw) items.now x.now) }
{
    let (first, rest) = items.split_first()?;
    Some(highest_from(first, rest))
}
