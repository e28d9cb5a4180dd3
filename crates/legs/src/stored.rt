// The search for a stored msg2: over the links from the newest down, and the addresses of each whose leg yields one, left at the first that counts.
ghost use Rattle.std.specs.Prelude.{◌≡◌, false, ◌+◌, ◌≤◌, ◌<◌, length, take, drop, get_or};
ghost use Rattle.rules.specs.Settle.{stored_in};
ghost use Rattle.node_addr.specs.Place.{pair_here, PairIn};
ghost use Rattle.links_entry.specs.View.{FitLinks, view_links, link_count};
ghost use Rattle.legs_entry.specs.View.{FitLegs, view_legs};
ghost use Rattle.legs.specs.Stored.{link_at, Tells, yield_of, reach, to_look};

use crate::map::{find_leg, leg_count};
use legs_entry::at::stored_at;
use links_entry::read::{
    link_count, no_at, path_count_at, released_at, setup_eq_wire, wire_proven_at,
};
use node_addr::LinkNo;

// The leg on a link, if it yields its msg2 for the `len` bytes from `at` on.
pub fn yielding(s: &[u8], n: LinkNo, rec: &[u8], at: usize, len: usize) -> Option<usize>
    requires fit_legs { FitLegs s.now }
    requires len_in_bounds { at + len ≤ length rec.now }
    ensures { Tells result s.now (yield_of (take len (drop at rec.now)) (view_legs s.now) n.0) }
{
    let i = find_leg(s, n)?;
    if stored_at(s, i, rec, at, len) {
        Some(i)
    } else {
        None
    }
}

// How many addresses of the i-th link are to be looked at, the setup and its paths: none where no leg yields.
fn addresses(links: &[u8], i: usize, f: Option<usize>) -> usize
    requires fit_links { FitLinks links.now }
    requires i_bound { i < link_count links.now }
    ensures { result ≡ to_look f (link_at links.now i) }
{
    match f {
        Some(_) => path_count_at(links, i) + 1,
        None => 0,
    }
}

// Whether the index has the i-th link at the pair by its j-th address: the setup unless released, else a path that counts.
fn reached(links: &[u8], i: usize, j: usize, rec: &[u8], from: usize) -> bool
    requires fit_links { FitLinks links.now }
    requires i_bound { i < link_count links.now }
    requires pair_in { PairIn rec.now from }
    requires j_in_bounds { j < length (reach (pair_here (drop from rec.now)) (link_at links.now i)) }
    ensures { result ≡ get_or (reach (pair_here (drop from rec.now)) (link_at links.now i)) j false }
{
    if j == 0 {
        setup_eq_wire(links, i, rec, from) && !released_at(links, i)
    } else {
        wire_proven_at(links, i, j - 1, rec, from)
    }
}

// The place of the leg whose link and msg2 `stored` answers, for the pair that the record spells from `from` on and its n bytes from `at` on. A link whose leg yields none is passed over, whatever its addresses.
pub fn stored(
    links: &[u8],
    legs: &[u8],
    rec: &[u8],
    from: usize,
    at: usize,
    n: usize,
) -> Option<usize>
    requires fit_links { FitLinks links.now }
    requires fit_legs { FitLegs legs.now }
    requires pair_in { PairIn rec.now from }
    requires n_in_bounds { at + n ≤ length rec.now }
    ensures { Tells result legs.now (stored_in (pair_here (drop from rec.now)) (take n (drop at rec.now)) (view_legs legs.now) (view_links links.now)) }
{
    if leg_count(legs) == 0 {
        return None;
    }
    let end = link_count(links);
    let mut found = None;
    'search: for i in (0..end).rev() {
        let l = no_at(links, i);
        let f = yielding(legs, l, rec, at, n);
        for j in 0..addresses(links, i, f) {
            if reached(links, i, j, rec, from) {
                found = f;
                break 'search;
            }
        }
    }
    found
}
