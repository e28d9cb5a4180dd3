// Where a tape's records end.
ghost use Rattle.std.specs.Prelude.{◌≡◌};
ghost use Rattle.rules.specs.Tape as rule;

use crate::layout::LENGTH;
use lib_bytes::layout::U16;
use lib_bytes::read::get_be;

// How many bytes of a tape are its first record, with its length: all that there are where the record is cut.
pub fn extent(tape: &[u8]) -> usize
    ensures { result ≡ rule.extent tape.now }
{
    let most = tape.len();
    if most < U16 {
        return most;
    }
    let size = (get_be(tape, 0, U16) + LENGTH) as usize;
    if size <= most {
        return size;
    }
    most
}
