// Transferors and keys.
ghost use Rattle.std.specs.Prelude.{◌≡◌, get_or};
ghost use Rattle.layout.specs.Fields.{transferor_of};
ghost use Rattle.bundle.specs.Records.{records_of, no_rec, rec};
ghost use Rattle.bundle.specs.Keys.{clash};

use layout::Table;

// The transferor of the first record.
pub fn first_transferor(bundle: &[u8]) -> &[u8]
    ensures { result.now ≡ transferor_of (get_or (records_of bundle.now) 0 no_rec).body }
{
    layout::fields::transferor(super::walk::body_at(bundle, 0))
}

// Whether two records may not stand together.
#[tactic(auto, unfolding(crate::specs::Keys::clash))]
pub fn clashes<'a>(t: Table, r: &'a [u8], u: Table, q: &'a [u8]) -> bool
    ensures { result ≡ clash (rec t r.now) (rec u q.now) }
{
    if t != u {
        return false;
    }
    if !layout::fields::same_key(t, r, q) {
        return false;
    }
    layout::fields::share_day(t, r, q)
}
