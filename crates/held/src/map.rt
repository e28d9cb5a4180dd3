// The held peers of a region: counted, found, inserted in the order of their addresses, and removed.
ghost use Rattle.std.specs.Prelude.{◌≡◌, ◌<◌, length};
ghost use Rattle.rules.specs.Base.{without};
ghost use Rattle.rules.specs.Std.{insert};
ghost use Rattle.rules.specs.Settle.{named, earlier_held};
ghost use Rattle.lib_laws.specs.Shift.{erase};
ghost use Rattle.lib_laws.specs.Scan.{scan};
ghost use Rattle.node_addr.specs.Search.{Takes};
ghost use Rattle.held.specs.View.{FitHeld, view_rec, view_held, held_count};
ghost use Rattle.held.specs.At.{precedes};

use crate::entry::put_held;
use crate::layout::{HELD_CAP, HELD_COUNT, HELD_WIDTH};
use crate::record::Held;
use lib_region::{count, open_chunk, remove_chunk};
use node_addr::NodeAddr;
use node_addr::search::{find_node, place_before};

pub fn held_count(s: &[u8]) -> usize
    requires { FitHeld s.now }
    ensures value { result ≡ held_count s.now }
    ensures value_2 { result ≡ length (view_held s.now) }
{
    count(s, HELD_COUNT)
}

// The place of a peer.
pub fn find_held(s: &[u8], peer: NodeAddr) -> Option<usize>
    requires { FitHeld s.now }
    ensures { result ≡ scan (named peer.0) 0 (view_held s.now) }
{
    find_node(s, HELD_WIDTH, held_count(s), peer)
}

// Where a peer belongs: before the first whose address is greater, else at the end.
fn place_for(s: &[u8], peer: NodeAddr) -> usize
    requires { FitHeld s.now }
    ensures { Takes result (scan (precedes peer.0) 0 (view_held s.now)) (held_count s.now) }
{
    place_before(s, HELD_WIDTH, held_count(s), peer)
}

// A peer that is not held yet.
pub fn insert_held(s: &mut [u8], h: Held)
    requires fit_held { FitHeld s.old }
    requires s_bound { held_count s.old < 32 }
    ensures fit_held_2 { FitHeld s.new }
    ensures s_after { view_held s.new ≡ insert earlier_held (view_rec h) (view_held s.old) }
{
    let i = place_for(s, h.peer);
    open_chunk(s, HELD_WIDTH, HELD_CAP, i);
    put_held(s, i * HELD_WIDTH, h);
}

pub fn remove_held(s: &mut [u8], i: usize)
    requires fit_held { FitHeld s.old }
    requires i_bound { i < held_count s.old }
    ensures fit_held_2 { FitHeld s.new }
    ensures s_after { view_held s.new ≡ erase i (view_held s.old) }
{
    remove_chunk(s, HELD_WIDTH, HELD_CAP, i);
}

// A peer goes, if it is held.
pub fn drop_held(s: &mut [u8], peer: NodeAddr)
    requires { FitHeld s.old }
    ensures fit_held { FitHeld s.new }
    ensures s_after { view_held s.new ≡ without (named peer.0) (view_held s.old) }
{
    if let Some(i) = find_held(s, peer) {
        remove_held(s, i);
    }
}
