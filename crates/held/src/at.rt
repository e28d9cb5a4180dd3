// The i-th held peer: single cells read where they stand, and the whole.
ghost use Rattle.std.specs.Prelude.{◌≡◌, ◌<◌, drop, option_map};
ghost use Rattle.rules.specs.Data.{same_pair};
ghost use Rattle.node_addr.specs.View.{view_pair};
ghost use Rattle.node_addr.specs.Place.{pair_here, PairIn};
ghost use Rattle.held.specs.View.{FitHeld, held_count, nth_held};

use crate::layout::{CURRENT, EPOCH, HAS_LAST, HAS_SETUP, HEARD, HELD_WIDTH, INSTALLED, LINK};
use lib_bytes::flag::{get_flag, get_option};
use lib_bytes::layout::U64;
use lib_bytes::read::get_be;
use node_addr::place::{eq_pair_at, eq_wire_pair, load_fixed, load_optional};
use node_addr::{Digest, LinkNo, NodeAddr, Pair};

pub fn peer_at(s: &[u8], i: usize) -> NodeAddr
    requires fit_held { FitHeld s.now }
    requires i_bound { i < held_count s.now }
    ensures { result.0 ≡ (nth_held s.now i).peer }
{
    load_fixed(s, i * HELD_WIDTH)
}

pub fn link_at(s: &[u8], i: usize) -> LinkNo
    requires fit_held { FitHeld s.now }
    requires i_bound { i < held_count s.now }
    ensures { result.0 ≡ (nth_held s.now i).link }
{
    LinkNo(get_be(s, i * HELD_WIDTH + LINK, U64))
}

pub fn epoch_at(s: &[u8], i: usize) -> u64
    requires fit_held { FitHeld s.now }
    requires i_bound { i < held_count s.now }
    ensures { result ≡ (nth_held s.now i).epoch }
{
    get_be(s, i * HELD_WIDTH + EPOCH, U64)
}

pub fn installed_at(s: &[u8], i: usize) -> u64
    requires fit_held { FitHeld s.now }
    requires i_bound { i < held_count s.now }
    ensures { result ≡ (nth_held s.now i).installed }
{
    get_be(s, i * HELD_WIDTH + INSTALLED, U64)
}

pub fn heard_at(s: &[u8], i: usize) -> bool
    requires fit_held { FitHeld s.now }
    requires i_bound { i < held_count s.now }
    ensures { result ≡ (nth_held s.now i).heard }
{
    get_flag(s, i * HELD_WIDTH + HEARD)
}

// When the last frame of its session was heard.
pub fn last_at(s: &[u8], i: usize) -> Option<u64>
    requires fit_held { FitHeld s.now }
    requires i_bound { i < held_count s.now }
    ensures { result ≡ (nth_held s.now i).last }
{
    get_option(s, i * HELD_WIDTH + HAS_LAST)
}

// The digest of the msg1 that was answered, where an answer of this node installed it.
pub fn setup_at(s: &[u8], i: usize) -> Option<Digest>
    requires fit_held { FitHeld s.now }
    requires i_bound { i < held_count s.now }
    ensures { option_map (λ d. d.0) result ≡ (nth_held s.now i).setup }
{
    load_optional(s, i * HELD_WIDTH + HAS_SETUP)
}

// Whether the current pair is p.
pub fn current_is(s: &[u8], i: usize, p: Pair) -> bool
    requires fit_held { FitHeld s.now }
    requires i_bound { i < held_count s.now }
    ensures { result ≡ same_pair (view_pair p) (nth_held s.now i).current }
{
    eq_pair_at(s, i * HELD_WIDTH + CURRENT, p)
}

// Whether the current pair is the one that stands in a record.
pub fn current_stands(s: &[u8], i: usize, rec: &[u8], from: usize) -> bool
    requires fit_held { FitHeld s.now }
    requires i_bound { i < held_count s.now }
    requires pair_in { PairIn rec.now from }
    ensures { result ≡ same_pair (pair_here (drop from rec.now)) (nth_held s.now i).current }
{
    eq_wire_pair(s, i * HELD_WIDTH + CURRENT, rec, from)
}
