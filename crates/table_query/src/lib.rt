// What the rules ask of more than one map.
#![tactic(auto)]

ghost use Rattle.std.specs.Prelude.{◌≡◌, true, false, ◌+◌, ◌≤◌, ◌<◌, length, take, drop};
ghost use Rattle.rules.specs.Settle as settle;
ghost use Rattle.node_addr.specs.View.{view_pair};
ghost use Rattle.node_addr.specs.Place.{pair_here, PairIn};
ghost use Rattle.table_layout.specs.View.{view_table, FitTable, nth_held};
ghost use Rattle.table_query.specs.Ask.{Yields};

use node_addr::Pair;
use table_held::{current_is, held_link};
use table_layout::head::pending_of;
use table_layout::layout::{LEGS, LEGS_END, LINKS, LINKS_END};
use table_legs::answering;
use table_links::{find_link, link_outbound, link_proven, setup_is};

// The place of the leg whose link and stored msg2 answer the n bytes from `at` on, from the pair that the record spells from `from` on.
pub fn stored(t: &[u8], rec: &[u8], from: usize, at: usize, n: usize) -> Option<usize>
    requires fit_table { FitTable t.now }
    requires pair_in { PairIn rec.now from }
    requires n_in_bounds { at + n ≤ length rec.now }
    ensures { Yields result (view_table t.now) (settle.stored (pair_here (drop from rec.now)) (take n (drop at rec.now)) (view_table t.now)) }
{
    legs::stored::stored(&t[LINKS..LINKS_END], &t[LEGS..LEGS_END], rec, from, at, n)
}

// Whether answers are at least the settings' pending.
pub fn full(t: &[u8]) -> bool
    requires { FitTable t.now }
    ensures { result ≡ settle.full (view_table t.now) }
{
    let m = pending_of(t);
    let n = answering(t);
    m <= n as u64
}

// Whether this node dialed the link of the i-th held peer.
pub fn own(t: &[u8], i: usize) -> bool
    requires fit_table { FitTable t.now }
    requires i_in_bounds { i < length (view_table t.now).held }
    ensures { result ≡ settle.own (nth_held (view_table t.now) i) (view_table t.now) }
{
    let n = held_link(t, i);
    match find_link(t, n) {
        Some(j) => link_outbound(t, j),
        None => false,
    }
}

// Whether the pair is the i-th held peer's: its link's setup, the current pair, or a path that counts.
pub fn attributed(t: &[u8], i: usize, p: Pair) -> bool
    requires fit_table { FitTable t.now }
    requires i_in_bounds { i < length (view_table t.now).held }
    ensures { result ≡ settle.attributed (nth_held (view_table t.now) i) (view_pair p) (view_table t.now) }
{
    let n = held_link(t, i);
    let Some(j) = find_link(t, n) else {
        return false;
    };
    if setup_is(t, j, p) {
        return true;
    }
    if current_is(t, i, p) {
        return true;
    }
    link_proven(t, j, p)
}
