// Reads a bundle from standard input and writes the verdict on it as one line.
#![tactic(auto)]

ghost use Rattle.std.specs.Prelude.{◌≡◌};
ghost use Rattle.verdict.specs.Program.{program_verdict};

use common::{Reason, Refusal};
use names::words;
use std::io;

// The most bytes that this program takes.
const LIMIT: usize = 65536;

fn judge(input: &[u8]) -> Result<usize, Refusal>
    ensures { result ≡ program_verdict input.now }
{
    if LIMIT < input.len() {
        return Err(common::refuse(Reason::BundleTooLong, 0, 0));
    }
    offers::verdict(input)
}

// The buffer has room for a byte more than the limit, so that longer input shows. A read that fails ends the input.
fn main(rt: HostRuntime) -> io::Result<()> {
    let mut buffer = [0u8; LIMIT + 1];
    let (n, _) = input::read_full(&mut rt.stdin(), &mut buffer);
    words::say_verdict(&rt, judge(&buffer[..n]))
}
