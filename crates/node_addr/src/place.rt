// Pairs, node addresses, digests and messages at a place of lent memory: read, written, and compared where they stand, since no value is there that could derive it. A writer answers the place after what it wrote.
ghost use Rattle.std.specs.Prelude.{◌≡◌, ◌+◌, ◌≤◌, length, take, drop, option_map};
ghost use Rattle.rules.specs.Base.{same};
ghost use Rattle.rules.specs.Std.{before};
ghost use Rattle.rules.specs.Data.{same_pair};
ghost use Rattle.lib_laws.specs.Splice.{Wrote};
ghost use Rattle.lib_laws.specs.Cell.{option_bytes, bytes_cells};
ghost use Rattle.node_addr.specs.View.{view_pair};
ghost use Rattle.node_addr.specs.Place.{pair_of, pair_here, PairIn, pair_cell, PairCell, message_cell};
ghost use Rattle.node_addr.specs.Layout.{message_width, pair_width};

use crate::layout::{PAIR_ADDR, PAIR_LEN};
use crate::{Addr, Fixed, Message, NodeAddr, Pair, TransportId};
use lib_bytes::compare::{eq_bytes, lt_bytes};
use lib_bytes::flag::{get_flag, put_flag};
use lib_bytes::layout::U32;
use lib_bytes::read::{get_be, get_byte, take};
use lib_bytes::write::{clear, put, put_be};

pub fn load_fixed<const N: usize>(s: &[u8], at: usize) -> Fixed<N>
    requires { at + N ≤ length s.now }
    ensures { result.0 ≡ take N (drop at s.now) }
{
    Fixed(take(s, at))
}

pub fn put_fixed<const N: usize>(s: &mut [u8], at: usize, x: Fixed<N>) -> usize
    requires { at + N ≤ length s.old }
    ensures { Wrote s.old at N x.entry.0 s.new result }
{
    put(s, at, x.0)
}

#[tactic(auto, using(lib_laws::specs::Numbers::same_pointwise))]
pub fn eq_fixed_at<const N: usize>(s: &[u8], at: usize, x: Fixed<N>) -> bool
    requires { at + N ≤ length s.now }
    ensures { result ≡ same x.entry.0 (take N (drop at s.now)) }
{
    x == load_fixed(s, at)
}

// One behind a flag, if there is one.
pub fn load_optional<const N: usize>(s: &[u8], at: usize) -> Option<Fixed<N>>
    requires { at + 1 + N ≤ length s.now }
    ensures { option_map (λ x. x.0) result ≡ option_bytes (take 1 (drop at s.now)) (take N (drop (at + 1) s.now)) }
{
    if get_flag(s, at) {
        Some(load_fixed(s, at + 1))
    } else {
        None
    }
}

// Zeros where there is none.
pub fn put_optional<const N: usize>(s: &mut [u8], at: usize, o: Option<Fixed<N>>) -> usize
    requires { at + (1 + N) ≤ length s.old }
    ensures { Wrote s.old at (1 + N) (bytes_cells N (option_map (λ x. x.0) o.entry)) s.new result }
{
    match o {
        Some(x) => {
            let a = put_flag(s, at, true);
            put_fixed(s, a, x)
        }
        None => {
            let a = put_flag(s, at, false);
            clear(s, a, N)
        }
    }
}

// Whether a node address comes before another.
pub fn node_before(a: NodeAddr, b: NodeAddr) -> bool
    ensures { result ≡ before a.0 b.0 }
{
    lt_bytes(&a.0, 0, &b.0, 0)
}

// Whether a node address comes before the one at a place.
pub fn lt_node_at(s: &[u8], at: usize, n: NodeAddr) -> bool
    requires { at + 16 ≤ length s.now }
    ensures { result ≡ before n.0 (take 16 (drop at s.now)) }
{
    lt_bytes(&n.0, 0, s, at)
}

pub fn load_pair(s: &[u8], at: usize) -> Pair
    requires pair_width_in_bounds { at + pair_width ≤ length s.now }
    requires is_pair { PairCell (take pair_width (drop at s.now)) }
    ensures { view_pair result ≡ pair_of (take pair_width (drop at s.now)) }
{
    let t = get_be(s, at, U32);
    Pair {
        transport: TransportId(t as u32),
        addr: Addr::load_cell(s, at + PAIR_LEN),
    }
}

pub fn put_pair(s: &mut [u8], at: usize, p: Pair) -> usize
    requires { at + pair_width ≤ length s.old }
    ensures { Wrote s.old at pair_width (pair_cell p) s.new result }
{
    let a = put_be(s, at, p.transport.0 as u64, U32);
    p.addr.put_cell(s, a)
}

pub fn eq_pair_at(s: &[u8], at: usize, p: Pair) -> bool
    requires pair_width_in_bounds { at + pair_width ≤ length s.now }
    requires is_pair { PairCell (take pair_width (drop at s.now)) }
    ensures { result ≡ same_pair (view_pair p) (pair_of (take pair_width (drop at s.now))) }
{
    if get_be(s, at, U32) != p.transport.0 as u64 {
        return false;
    }
    p.addr.is_cell(s, at + PAIR_LEN)
}

// Whether the pair at a place is the one that a record spells at another: the length is among the first bytes, so that one run decides.
pub fn eq_wire_pair(s: &[u8], at: usize, rec: &[u8], from: usize) -> bool
    requires pair_width_in_bounds { at + pair_width ≤ length s.now }
    requires is_pair { PairCell (take pair_width (drop at s.now)) }
    requires pair_in { PairIn rec.now from }
    ensures { result ≡ same_pair (pair_here (drop from rec.now)) (pair_of (take pair_width (drop at s.now))) }
{
    let n = PAIR_ADDR + get_byte(rec, from + PAIR_LEN) as usize;
    eq_bytes(rec, from, s, at, n)
}

// A pair as a record spells it, by value.
pub fn load_wire_pair(rec: &[u8], from: usize) -> Pair
    requires { PairIn rec.now from }
    ensures { view_pair result ≡ pair_here (drop from rec.now) }
{
    let t = get_be(rec, from, U32);
    let n = get_byte(rec, from + PAIR_LEN) as usize;
    Pair {
        transport: TransportId(t as u32),
        addr: Addr::load(rec, from + PAIR_ADDR, n),
    }
}

pub fn put_message(s: &mut [u8], at: usize, m: Message) -> usize
    requires { at + message_width ≤ length s.old }
    ensures { Wrote s.old at message_width (message_cell m) s.new result }
{
    m.put_cell(s, at)
}
