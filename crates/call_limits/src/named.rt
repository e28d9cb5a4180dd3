// Who names a peer: legs, memories, held peers.
ghost use Rattle.std.specs.Prelude.{◌≡◌, true, false, ◌≤◌, ◌<◌, length, drop};
ghost use Rattle.rules.specs.Base.{same, any};
ghost use Rattle.rules.specs.Settle.{peer_of, leg_peers, places};
ghost use Rattle.table_layout.specs.View.{view_table, FitTable, nth_leg};
ghost use Rattle.call_limits.specs.Count.{from_leg};

use node_addr::NodeAddr;
use table_gates::find_memory;
use table_held::find_held;
use table_legs::{leg_count, leg_peer};

// Whether the i-th leg names the peer.
fn leg_is(t: &[u8], i: usize, peer: NodeAddr) -> bool
    requires fit_table { FitTable t.now }
    requires i_in_bounds { i < length (view_table t.now).legs }
    ensures { result ≡ any (same peer.0) (peer_of (nth_leg (view_table t.now) i)) }
{
    match leg_peer(t, i) {
        Some(q) => peer == q,
        None => false,
    }
}

// Whether a leg from a place on names the peer.
pub fn leg_names(t: &[u8], from: usize, peer: NodeAddr) -> bool
    requires fit_table { FitTable t.now }
    requires from_in_bounds { from ≤ length (view_table t.now).legs }
    ensures { result ≡ any (same peer.0) (leg_peers (drop from (view_table t.now).legs)) }
{
    for i in from..leg_count(t) {
        if leg_is(t, i, peer) {
            return true;
        }
    }
    false
}

// Whether a leg from a place on names the peer, or a memory.
pub fn named_from(t: &[u8], from: usize, peer: NodeAddr) -> bool
    requires fit_table { FitTable t.now }
    requires from_in_bounds { from ≤ length (view_table t.now).legs }
    ensures { result ≡ any (same peer.0) (from_leg (view_table t.now) from) }
{
    find_memory(t, peer).is_some() || leg_names(t, from, peer)
}

// Whether the peer has a place.
pub fn has_place(t: &[u8], peer: NodeAddr) -> bool
    requires { FitTable t.now }
    ensures { result ≡ any (same peer.0) (places (view_table t.now)) }
{
    find_held(t, peer).is_some() || named_from(t, 0, peer)
}
