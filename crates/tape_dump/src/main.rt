// A tape from standard input; after each record the bytes of the table, if there is one, to standard output. For comparison with the Rust's tables.
#![tactic(auto)]

ghost use Rattle.std.specs.Prelude.{◌≡◌, ◌≤◌, length};
ghost use Rattle.table_layout.specs.Layout.{table_len};
ghost use Rattle.tape.specs.Layout.{out_len, record_len};

use table_layout::layout::TABLE_LEN;
use tape::feed::next_record;
use tape::layout::{OUT_LEN, RECORD_LEN};
use tape::session::{Phase, step};

// A proved loop has to end: it counts its turns, up to a number that no run reaches.
fn dump(table: &mut [u8], buf: &mut [u8], out: &mut [u8])
    requires whole_table { length table.old ≡ table_len }
    requires buf_len { length buf.old ≡ record_len }
    requires out_len_in_bounds { out_len ≤ length out.old }
{
    let mut phase = Phase::Before;
    for _ in 0..u64::MAX {
        let n = next_record(buf);
        if n == 0 {
            return;
        }
        let r = step(phase, table, &buf[..n], out);
        phase = r.phase;
        let Phase::Running = phase else {
            return;
        };
        io::write_all(1, table);
    }
}

fn main() {
    let mut table = [0u8; TABLE_LEN];
    let mut buf = [0u8; RECORD_LEN];
    let mut out = [0u8; OUT_LEN];
    dump(&mut table, &mut buf, &mut out);
}
