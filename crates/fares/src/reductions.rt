// A discount taken from an amount, and rounded once as the record that grants it says.
ghost use Rattle.std.specs.Prelude.{◌≡◌, ◌-◌, ◌≤◌};
ghost use Rattle.fares.specs.Reductions.{reduce_by};
ghost use Rattle.fares.specs.Rounding.{unit};

use super::rounding::Exact;
use layout::fields::Grant;

// What is left of the whole after a discount.
fn kept(discount: u32) -> u64
    ensures { result ≡ unit - discount }
{
    if 100000 < discount {
        return 0;
    }
    (100000 - discount) as u64
}

pub fn reduce(amount: u64, by: Grant) -> u64
    requires { (amount ≤ 10000000000) × (by.factor ≤ 999) }
    ensures { result ≡ reduce_by amount by }
{
    Exact {
        n: amount * kept(by.discount),
        factor: by.factor as u64,
    }
    .rounded(by.mode)
}
