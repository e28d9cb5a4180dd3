// A peer moves onto another link: at a place, and of a peer if it is held.
ghost use Rattle.std.specs.Prelude.{◌≡◌, ◌<◌, set};
ghost use Rattle.rules.specs.Base.{alter};
ghost use Rattle.rules.specs.Settle.{named, moved_to};
ghost use Rattle.node_addr.specs.View.{view_pair};
ghost use Rattle.held.specs.View.{FitHeld, view_held, held_count, nth_held};

use crate::change::{set_current, set_heard, set_link};
use crate::map::find_held;
use node_addr::{LinkNo, NodeAddr, Pair};

pub fn moved_to(s: &mut [u8], i: usize, link: LinkNo, from: Pair)
    requires fit_held { FitHeld s.old }
    requires i_bound { i < held_count s.old }
    ensures fit_held_2 { FitHeld s.new }
    ensures s_after { view_held s.new ≡ set (view_held s.old) i (moved_to link.0 (view_pair from) (nth_held s.old i)) }
{
    set_link(s, i, link);
    set_heard(s, i, true);
    set_current(s, i, from);
}

pub fn move_peer(s: &mut [u8], peer: NodeAddr, link: LinkNo, from: Pair)
    requires { FitHeld s.old }
    ensures fit_held_2 { FitHeld s.new }
    ensures s_after { view_held s.new ≡ alter (named peer.0) (moved_to link.0 (view_pair from)) (view_held s.old) }
{
    if let Some(i) = find_held(s, peer) {
        moved_to(s, i, link, from);
    }
}
