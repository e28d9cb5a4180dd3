// A whole tape in a lent slice.
ghost use Rattle.std.specs.Prelude.{◌≡◌, length};
ghost use Rattle.table_layout.specs.Layout.{table_len};
ghost use Rattle.tape.specs.Run.{Runs};

use crate::cut::extent;
use crate::layout::OUT_LEN;
use crate::session::{Phase, step};

// Where the session stands after a tape, how many bytes of the buffer are written, and whether no record was left.
#[derive(Clone, Copy)]
pub struct Ran {
    pub phase: Phase,
    pub len: usize,
    pub whole: bool,
}

// Runs the records of a tape, each behind what is written already. It stops before one for which fewer than OUT_LEN bytes of the buffer are left.
pub fn run(tape: &[u8], table: &mut [u8], out: &mut [u8]) -> Ran
    requires { length table.old ≡ table_len }
    ensures { Runs tape.now table.old out.old table.new out.new result.phase result.len result.whole }
{
    let mut phase = Phase::Before;
    let mut at = 0;
    let mut len = 0;
    // no `for`: a record says itself where the next one begins
    while at < tape.len() {
        if out.len() - len < OUT_LEN {
            return Ran {
                phase,
                len,
                whole: false,
            };
        }
        let end = at + extent(&tape[at..]);
        let n = step(phase, table, &tape[at..end], &mut out[len..]);
        phase = n.phase;
        len += n.len;
        at = end;
    }
    Ran {
        phase,
        len,
        whole: true,
    }
}
