// Many records: the walk over a bundle, its keys and links, and the verdict.
#![tactic(auto)]

ghost use Rattle.std.specs.Prelude.{◌≡◌};
ghost use Rattle.bundle.specs.Verdict.{verdict_of};

mod apart;
mod hints;
mod keys;
mod links;
mod passes;
mod room;
pub mod walk;

use common::{Reason, Refusal};

const LIMIT: usize = 1048576;

// The verdict on a bundle: how many records it has, or the first fault.
pub fn verdict(bundle: &[u8]) -> Result<usize, Refusal>
    ensures { result ≡ verdict_of bundle.now }
{
    if LIMIT < bundle.len() {
        return Err(common::refuse(Reason::BundleTooLong, 0, 0));
    }
    let records = passes::first_pass(bundle)?;
    room::second_pass(bundle, records)
}
