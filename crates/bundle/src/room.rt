// The room that the second pass is lent to keep things in mind: the more records there are, the more, as to clear much room would cost a few records more
// than it saves. Nothing is asked of what stands there at first but that each hint is the start of the bundle.
ghost use Rattle.std.specs.Prelude.{◌≡◌, ◌<◌, ◌^◌};
ghost use Rattle.bundle.specs.Helpers.{second_tells};

use common::Refusal;
use seen::Slots;

// Up to so many records have little room, and none for hints; up to so many some, and up to so many more.
const FEW: usize = 32;

const SOME: usize = 256;

const MANY: usize = 2048;

// The second pass over a bundle of so many records, in room for them: how many slots their places are kept in, and how many hints there are.
pub fn second_pass(bundle: &[u8], records: usize) -> Result<usize, Refusal>
    ensures { result ≡ second_tells bundle.now }
{
    if records <= FEW {
        return with_room::<67, 0>(bundle);
    }
    if records <= SOME {
        return with_room::<521, 1024>(bundle);
    }
    if records <= MANY {
        return with_room::<4099, 4096>(bundle);
    }
    with_room::<26003, 12288>(bundle)
}

// Each size is a function by itself, which is not put into its caller: the arrays of one function would each take stack of their own. Where there is room
// for hints, it is first noted where each record stands.
#[inline(never)]
fn with_room<const SLOTS: usize, const HINTS: usize>(bundle: &[u8]) -> Result<usize, Refusal>
    requires { (SLOTS < 2 ^ 16) × (HINTS < 2 ^ 16) }
    ensures { result ≡ second_tells bundle.now }
{
    let mut heads = [0u8; SLOTS];
    let mut lows = [0u16; SLOTS];
    let mut places = [0u32; HINTS];
    let mut hints = super::hints::Hints {
        bundle,
        places: &mut places,
    };
    if HINTS != 0 {
        hints.note_all();
    }
    let slots = Slots {
        heads: &mut heads,
        lows: &mut lows,
    };
    super::passes::second_pass(&mut hints, slots)
}
