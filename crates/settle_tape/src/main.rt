// settle-tape: a tape from standard input; for each record its outputs and Done to standard output.
#![tactic(auto)]

use table_layout::layout::TABLE_LEN;
use tape::feed::run_tape;
use tape::layout::{OUT_LEN, RECORD_LEN};

fn main() {
    let mut table = [0u8; TABLE_LEN];
    let mut buf = [0u8; RECORD_LEN];
    let mut out = [0u8; OUT_LEN];
    run_tape(&mut table, &mut buf, &mut out);
}
