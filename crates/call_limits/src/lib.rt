// Refusals 4, 5 and 6: whether there is a number for one more link, room for it, and a place for its peer.
#![tactic(auto)]

pub mod count;
pub mod named;

ghost use Rattle.std.specs.Prelude.{◌≡◌, ◌+◌, ◌-◌, ◌^◌, eqb, ltb, length};
ghost use Rattle.refusal.specs.Code.{number_of};
ghost use Rattle.call_contract.specs.Sound.{Ready};
ghost use Rattle.table_layout.specs.View.{view_table, FitTable};
ghost use Rattle.call_limits.specs.Enter.{Enters};

use crate::count::count_places;
use crate::named::has_place;
use links_entry::layout::LINK_CAP;
use node_addr::NodeAddr;
use refusal::Refusal;
use table_gates::memory_count;
use table_held::held_count;
use table_layout::head::next_no;
use table_legs::leg_count;
use table_links::link_count;

// The number that no link gets.
const LAST_NO: u64 = u64::MAX;

// How many peers have a place.
const PLACES: usize = 32;

// 4: whether the next link number is the last one, which no link gets.
pub fn numbers_exhausted(t: &[u8]) -> bool
    requires { FitTable t.now }
    ensures { result ≡ eqb (view_table t.now).next (2 ^ 64 - 1) }
{
    next_no(t) == LAST_NO
}

// Whether held peers, legs and memories together are so few that a place is left.
fn roomy(t: &[u8]) -> bool
    requires { FitTable t.now }
    ensures { result ≡ ltb (length (view_table t.now).held + length (view_table t.now).legs + length (view_table t.now).gates) 32 }
{
    held_count(t) + leg_count(t) + memory_count(t) < PLACES
}

// Whether there is room for a link with the peer: refused where 32 links are live, or the peer has no place and 32 places are used.
pub fn room_refusal(t: &[u8], peer: NodeAddr) -> Result<(), Refusal>
    requires { Ready t.now }
    ensures { Enters (number_of result) peer.0 (view_table t.now) }
{
    if LINK_CAP <= link_count(t) {
        return Err(Refusal::Links);
    }
    if roomy(t) || has_place(t, peer) || count_places(t) < PLACES {
        return Ok(());
    }
    Err(Refusal::Names)
}
