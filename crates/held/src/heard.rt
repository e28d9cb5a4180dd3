// A frame of the i-th held peer was heard, from a pair that stands in a record.
ghost use Rattle.std.specs.Prelude.{◌≡◌, ◌<◌, drop, set};
ghost use Rattle.rules.specs.Data.{same_pair};
ghost use Rattle.rules.specs.Settle.{heard_from};
ghost use Rattle.node_addr.specs.Place.{pair_here, PairIn};
ghost use Rattle.held.specs.View.{FitHeld, view_held, held_count, nth_held};
ghost use Rattle.held.specs.Change.{Changed, with_current};

use crate::at::current_stands;
use crate::change::{set_heard, set_last};
use crate::layout::{CURRENT, HELD_WIDTH};
use node_addr::place::{load_wire_pair, put_pair};

// The pair becomes the current one. It is written only if it differs.
fn take_current(s: &mut [u8], i: usize, stays: bool, rec: &[u8], from: usize)
    requires fit_held { FitHeld s.old }
    requires i_bound { i < held_count s.old }
    requires pair_in { PairIn rec.now from }
    requires stays_value { stays ≡ same_pair (pair_here (drop from rec.now)) (nth_held s.old i).current }
    ensures { Changed (with_current (pair_here (drop from rec.now))) i s.old s.new }
{
    if stays {
        return;
    }
    let p = load_wire_pair(rec, from);
    put_pair(s, i * HELD_WIDTH + CURRENT, p);
}

// Whether the pair was the current one already.
pub fn hear_at(s: &mut [u8], i: usize, clock: u64, rec: &[u8], from: usize) -> bool
    requires fit_held { FitHeld s.old }
    requires i_bound { i < held_count s.old }
    requires pair_in { PairIn rec.now from }
    ensures fit_held_2 { FitHeld s.new }
    ensures s_after { view_held s.new ≡ set (view_held s.old) i (heard_from clock (pair_here (drop from rec.now)) (nth_held s.old i)) }
    ensures value { result ≡ same_pair (pair_here (drop from rec.now)) (nth_held s.old i).current }
{
    let stays = current_stands(s, i, rec, from);
    take_current(s, i, stays, rec, from);
    set_heard(s, i, true);
    set_last(s, i, clock);
    stays
}
