// Stored tapes, each the count of its bytes in 4 bytes and then the bytes; what settle-tape writes for each. A tape that cannot be run whole ends the program, with a message on standard error.
#![tactic(auto)]

ghost use Rattle.std.specs.Prelude.{◌≡◌, ◌≤◌, length};
ghost use Rattle.table_layout.specs.Layout.{table_len};

use lib_bytes::layout::U32;
use lib_bytes::read::get_be;
use table_layout::layout::TABLE_LEN;
use tape::run::run;

// The longest tape, and room for what is written for one.
const TAPE_LEN: usize = 65536;

const ROOM: usize = 65536;

// Whether to go on: no.
fn ended(message: &[u8]) -> bool {
    io::write_all(2, message);
    false
}

// Reads a tape of so many bytes and runs it.
fn replay(tape: &mut [u8], size: usize, table: &mut [u8], out: &mut [u8]) -> bool
    requires size_in_bounds { size ≤ length tape.old }
    requires whole_table { length table.old ≡ table_len }
{
    let got = io::read_full(0, &mut tape[0..size]);
    if got < size {
        return ended(b"tape_replay: a tape is cut\n");
    }
    let r = run(&tape[..size], table, out);
    if !r.whole {
        return ended(b"tape_replay: too little room for what a tape writes\n");
    }
    let len = r.len;
    io::write_all(1, &out[..len])
}

// Whether there was one more.
fn one_tape() -> bool {
    let mut head = [0u8; U32];
    let got = io::read_full(0, &mut head);
    if got < U32 {
        return false;
    }
    let size = get_be(&head, 0, U32) as usize;
    if TAPE_LEN < size {
        return ended(b"tape_replay: a tape is too long\n");
    }
    let mut tape = [0u8; TAPE_LEN];
    let mut table = [0u8; TABLE_LEN];
    let mut out = [0u8; ROOM];
    replay(&mut tape, size, &mut table, &mut out)
}

// A proved loop has to end: it counts its turns, up to a number that no run reaches.
fn main() {
    for _ in 0..u64::MAX {
        if !one_tape() {
            return;
        }
    }
}
