// How many places are used: one for each memory, and one for each peer that only legs and held peers name.
ghost use Rattle.std.specs.Prelude.{◌≡◌, ◌+◌, ◌<◌, length};
ghost use Rattle.rules.specs.Settle.{places};
ghost use Rattle.table_layout.specs.View.{view_table, FitTable};
ghost use Rattle.call_contract.specs.Sound.{Ready};
ghost use Rattle.call_limits.specs.Count.{places_from, held_from};

use crate::named::named_from;
use table_gates::memory_count;
use table_held::{held_count, held_peer};
use table_legs::{leg_count, leg_peer};

// 1 if the i-th leg names a peer that no later leg and no memory names, else 0.
fn leg_place(t: &[u8], i: usize) -> usize
    requires fit_table { FitTable t.now }
    requires i_in_bounds { i < length (view_table t.now).legs }
    ensures { places_from (view_table t.now) i ≡ result + places_from (view_table t.now) (i + 1) }
{
    match leg_peer(t, i) {
        Some(p) if !named_from(t, i + 1, p) => 1,
        _ => 0,
    }
}

// The places of legs and memories.
fn leg_places(t: &[u8]) -> usize
    requires { Ready t.now }
    ensures { result ≡ places_from (view_table t.now) 0 }
{
    let mut k = memory_count(t);
    for i in 0..leg_count(t) {
        k += leg_place(t, i);
    }
    k
}

// 1 if no leg and no memory names the i-th held peer, else 0.
fn held_place(t: &[u8], i: usize) -> usize
    requires ready { Ready t.now }
    requires i_in_bounds { i < length (view_table t.now).held }
    ensures { held_from (view_table t.now) i ≡ result + held_from (view_table t.now) (i + 1) }
{
    if named_from(t, 0, held_peer(t, i)) {
        0
    } else {
        1
    }
}

// The places of all.
pub fn count_places(t: &[u8]) -> usize
    requires { Ready t.now }
    ensures { result ≡ length (places (view_table t.now)) }
{
    let mut k = leg_places(t);
    for i in 0..held_count(t) {
        k += held_place(t, i);
    }
    k
}
