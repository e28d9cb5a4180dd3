// A memory written to its entry. A writer answers the place after what it wrote.
ghost use Rattle.std.specs.Prelude.{◌+◌, ◌≤◌, length};
ghost use Rattle.rules.specs.Bounds.{IfAny};
ghost use Rattle.lib_laws.specs.Splice.{Wrote};
ghost use Rattle.gates_types.specs.View.{FitSilence, FitMemory};
ghost use Rattle.gates_entry.specs.Entry.{silence_bytes, silent_bytes, memory_bytes};
ghost use Rattle.gates_entry.specs.Layout.{memory_width, silence_len};

use crate::layout::SILENCE_LEN;
use crate::row::put_row;
use gates_types::{Memory, Silence};
use lib_bytes::flag::{put_flag, put_option};
use lib_bytes::layout::{U32, U64};
use lib_bytes::write::{clear, put_be};
use node_addr::place::put_fixed;

// A silence, 287 bytes.
fn put_silence(s: &mut [u8], at: usize, x: &Silence) -> usize
    requires fit_silence { FitSilence x.now }
    requires silence_len_in_bounds { at + silence_len ≤ length s.old }
    ensures { Wrote s.old at silence_len (silence_bytes x.now) s.new result }
{
    let a = put_option(s, at, x.epoch);
    let b = put_be(s, a, x.count as u64, U32);
    let c = put_be(s, b, x.last, U64);
    let d = put_option(s, c, x.until);
    put_row(s, d, &x.counted)
}

// A silence behind its flag, 288 bytes: zeros where there is none.
fn put_silent(s: &mut [u8], at: usize, o: &Option<Silence>) -> usize
    requires fit_silence { IfAny FitSilence o.now }
    requires silence_len_in_bounds { at + (1 + silence_len) ≤ length s.old }
    ensures { Wrote s.old at (1 + silence_len) (silent_bytes o.now) s.new result }
{
    match o {
        Some(x) => {
            let a = put_flag(s, at, true);
            put_silence(s, a, x)
        }
        None => {
            let a = put_flag(s, at, false);
            clear(s, a, SILENCE_LEN)
        }
    }
}

// A memory.
pub fn put_memory(s: &mut [u8], at: usize, m: &Memory) -> usize
    requires fit_memory { FitMemory m.now }
    requires memory_width_in_bounds { at + memory_width ≤ length s.old }
    ensures { Wrote s.old at memory_width (memory_bytes m.now) s.new result }
{
    let a = put_fixed(s, at, m.peer);
    let b = put_option(s, a, m.stamp);
    let c = put_silent(s, b, &m.silence);
    put_row(s, c, &m.replays)
}
