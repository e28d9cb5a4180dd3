// A tape from standard input, record by record, of any length.
ghost use Rattle.std.specs.Prelude.{◌≡◌, ◌≤◌, length};
ghost use Rattle.table_layout.specs.Layout.{table_len};
ghost use Rattle.tape.specs.Layout.{out_len, record_len};
ghost use Rattle.tape.specs.Feed.{Into, Cut};

use crate::layout::LENGTH;
use crate::session::{Phase, step};
use lib_bytes::layout::U16;
use lib_bytes::read::get_be;

// Reads into the bytes of a buffer from a place on up to another.
fn read_part(buf: &mut [u8], from: usize, to: usize) -> usize
    requires from_le_to { from ≤ to }
    requires to_in_bounds { to ≤ length buf.old }
    ensures { Into from to buf.old buf.new result }
{
    io::read_full(0, &mut buf[from..to])
}

// The next record: how many bytes it has, 0 at the tape's end, fewer than its length says where the tape is cut.
pub fn next_record(buf: &mut [u8]) -> usize
    requires { length buf.old ≡ record_len }
    ensures { Cut buf.new result }
{
    let got = read_part(buf, 0, U16);
    if got < U16 {
        return got;
    }
    let end = (get_be(buf, 0, U16) + LENGTH) as usize;
    U16 + read_part(buf, U16, end)
}

// A tape to its end, or to the Done of a first record that is refused; what is written for each record goes to standard output. What is read and written here is in no contract: `step` has what matters.
// A proved loop has to end: it counts its turns, up to a number that no run reaches.
pub fn run_tape(table: &mut [u8], buf: &mut [u8], out: &mut [u8])
    requires whole_table { length table.old ≡ table_len }
    requires buf_len { length buf.old ≡ record_len }
    requires out_len_in_bounds { out_len ≤ length out.old }
{
    let mut phase = Phase::Before;
    for _ in 0..u64::MAX {
        let n = next_record(buf);
        if n == 0 {
            return;
        }
        let r = step(phase, table, &buf[..n], out);
        let len = r.len;
        io::write_all(1, &out[..len]);
        phase = r.phase;
        if let Phase::Over = phase {
            return;
        }
    }
}
