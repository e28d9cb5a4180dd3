// A memory read from its entry.
ghost use Rattle.std.specs.Prelude.{◌≡◌, ◌+◌, ◌≤◌, ◌<◌, length, take, drop, option_map, None, Some, if◌then◌else◌};
ghost use Rattle.rules.specs.Bounds.{IfAny};
ghost use Rattle.lib_laws.specs.Cell.{flag_of};
ghost use Rattle.gates_types.specs.View.{view_silence, view_memory, FitSilence, FitMemory};
ghost use Rattle.gates_entry.specs.View.{silence_of, FitSilenceCell, FitGates, gate_count, memory_at};
ghost use Rattle.gates_entry.specs.Layout.{silence_len};

use crate::layout::{
    COUNT, COUNTED, HAS_SILENCE, HAS_STAMP, HAS_UNTIL, LAST, MEMORY_WIDTH, REPLAYS,
};
use crate::row::load_row;
use gates_types::{Memory, Silence};
use lib_bytes::flag::{get_flag, get_option};
use lib_bytes::layout::U32;
use lib_bytes::read::{get_8, get_be};
use node_addr::place::load_fixed;

// A silence of 287 bytes.
fn load_silence(s: &[u8], at: usize) -> Silence
    requires silence_len_in_bounds { at + silence_len ≤ length s.now }
    requires fit_silence_cell { FitSilenceCell (take silence_len (drop at s.now)) }
    ensures fit_silence { FitSilence result }
    ensures result_value { view_silence result ≡ silence_of (take silence_len (drop at s.now)) }
{
    Silence {
        epoch: get_option(s, at),
        count: get_be(s, at + COUNT, U32) as u32,
        last: get_8(s, at + LAST),
        until: get_option(s, at + HAS_UNTIL),
        counted: load_row(s, at + COUNTED),
    }
}

// The silence behind its flag, if there is one.
fn load_silent(s: &[u8], at: usize) -> Option<Silence>
    requires silence_len_in_bounds { at + 1 + silence_len ≤ length s.now }
    requires fit_silence_cell { FitSilenceCell (take silence_len (drop (at + 1) s.now)) }
    ensures fit_silence { IfAny FitSilence result }
    ensures result_value { option_map view_silence result ≡ (if flag_of (take 1 (drop at s.now)) then Some (silence_of (take silence_len (drop (at + 1) s.now))) else None) }
{
    if get_flag(s, at) {
        Some(load_silence(s, at + 1))
    } else {
        None
    }
}

// The i-th memory.
pub fn get_memory(s: &[u8], i: usize) -> Memory
    requires fit_gates { FitGates s.now }
    requires i_bound { i < gate_count s.now }
    ensures fit_memory { FitMemory result }
    ensures result_value { view_memory result ≡ memory_at s.now i }
{
    let a = i * MEMORY_WIDTH;
    Memory {
        peer: load_fixed(s, a),
        stamp: get_option(s, a + HAS_STAMP),
        silence: load_silent(s, a + HAS_SILENCE),
        replays: load_row(s, a + REPLAYS),
    }
}
