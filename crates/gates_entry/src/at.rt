// Single cells of the i-th memory, read where they stand.
ghost use Rattle.std.specs.Prelude.{◌≡◌, ◌+◌, ◌*◌, ◌<◌, take, drop, get_or};
ghost use Rattle.rules.specs.Base.{same};
ghost use Rattle.lib_laws.specs.Cell.{num, flag_of, option_num};
ghost use Rattle.node_addr.specs.Layout.{digest_len};
ghost use Rattle.gates_entry.specs.Layout.{at_has_silence, at_has_stamp, at_has_until, at_replay_count, at_replays, at_seen, at_silence, at_silence_epoch, at_stamp, at_until, memory_width, replay_cap, replay_width};
ghost use Rattle.gates_entry.specs.View.{FitGates, gate_count};

use crate::layout::{
    HAS_SILENCE, HAS_STAMP, HAS_UNTIL, MEMORY_WIDTH, REPLAY_COUNT, REPLAY_WIDTH, REPLAYS, SEEN,
    SILENCE,
};
use lib_bytes::flag::{get_flag, get_option};
use lib_bytes::read::get_8;
use lib_region::count;
use node_addr::Digest;
use node_addr::place::eq_fixed_at;

// Its stamp, if it has one.
pub fn stamp_at(s: &[u8], i: usize) -> Option<u64>
    requires fit_gates { FitGates s.now }
    requires i_bound { i < gate_count s.now }
    ensures { result ≡ option_num (take 1 (drop (i * memory_width + at_has_stamp) s.now)) (take 8 (drop (i * memory_width + at_stamp) s.now)) }
{
    get_option(s, i * MEMORY_WIDTH + HAS_STAMP)
}

// Whether it has a silence.
pub fn has_silence_at(s: &[u8], i: usize) -> bool
    requires fit_gates { FitGates s.now }
    requires i_bound { i < gate_count s.now }
    ensures { result ≡ flag_of (take 1 (drop (i * memory_width + at_has_silence) s.now)) }
{
    get_flag(s, i * MEMORY_WIDTH + HAS_SILENCE)
}

// The epoch of its silence, if that has one.
pub fn epoch_at(s: &[u8], i: usize) -> Option<u64>
    requires fit_gates { FitGates s.now }
    requires i_bound { i < gate_count s.now }
    ensures { result ≡ option_num (take 1 (drop (i * memory_width + at_silence) s.now)) (take 8 (drop (i * memory_width + at_silence + at_silence_epoch) s.now)) }
{
    get_option(s, i * MEMORY_WIDTH + SILENCE)
}

// Until when its silence refuses, if it does.
pub fn until_at(s: &[u8], i: usize) -> Option<u64>
    requires fit_gates { FitGates s.now }
    requires i_bound { i < gate_count s.now }
    ensures { result ≡ option_num (take 1 (drop (i * memory_width + at_silence + at_has_until) s.now)) (take 8 (drop (i * memory_width + at_silence + at_until) s.now)) }
{
    get_option(s, i * MEMORY_WIDTH + SILENCE + HAS_UNTIL)
}

// How many replays it has.
pub fn replay_count_at(s: &[u8], i: usize) -> usize
    requires fit_gates { FitGates s.now }
    requires i_bound { i < gate_count s.now }
    ensures { result ≡ get_or s.now (i * memory_width + at_replays + at_replay_count) 0 }
{
    count(s, i * MEMORY_WIDTH + REPLAYS + REPLAY_COUNT)
}

// When its j-th replay was seen.
pub fn seen_at(s: &[u8], i: usize, j: usize) -> u64
    requires fit_gates { FitGates s.now }
    requires i_bound { i < gate_count s.now }
    requires j_lt_replay_cap { j < replay_cap }
    ensures { result ≡ num (take 8 (drop (i * memory_width + at_replays + j * replay_width + at_seen) s.now)) }
{
    get_8(s, i * MEMORY_WIDTH + REPLAYS + j * REPLAY_WIDTH + SEEN)
}

// Whether its j-th replay is of the digest.
pub fn replay_is(s: &[u8], i: usize, j: usize, digest: Digest) -> bool
    requires fit_gates { FitGates s.now }
    requires i_bound { i < gate_count s.now }
    requires j_lt_replay_cap { j < replay_cap }
    ensures { result ≡ same digest.0 (take digest_len (drop (i * memory_width + at_replays + j * replay_width) s.now)) }
{
    eq_fixed_at(s, i * MEMORY_WIDTH + REPLAYS + j * REPLAY_WIDTH, digest)
}
