// Link records read where they stand.
ghost use Rattle.std.specs.Prelude.{◌≡◌, ◌||◌, ◌≤◌, ◌<◌, length, drop, get_or};
ghost use Rattle.rules.specs.Base.{any, empty};
ghost use Rattle.rules.specs.Data.{same_pair};
ghost use Rattle.rules.specs.Links.{numbered, is_leg, proven_at, uses, in_use, indexed};
ghost use Rattle.lib_laws.specs.Scan.{scan};
ghost use Rattle.node_addr.specs.View.{view_pair};
ghost use Rattle.node_addr.specs.Place.{pair_here, PairIn};
ghost use Rattle.links_entry.specs.Layout.{path_cap};
ghost use Rattle.links_entry.specs.View.{outward, FitLinks, view_links, link_count, no_link, no_path, view_dir, view_holder, view_link, full, crowding};

use crate::layout::{
    DIR, HOLDER, HOLDER_PEER, LINK_COUNT, LINK_PATH_COUNT, LINK_WIDTH, PATHS, PATHS_LEN, RELEASED,
    SETUP,
};
use crate::paths::{full_at, load_paths, pair_at, proves, wire_proven_path};
use crate::record::{Dir, Holder, LinkRec};
use lib_bytes::layout::U64;
use lib_bytes::read::{get_be, get_byte};
use node_addr::place::{eq_pair_at, eq_wire_pair, load_fixed, load_pair};
use node_addr::{LinkNo, Pair};

// How many there are.
pub fn link_count(s: &[u8]) -> usize
    requires { FitLinks s.now }
    ensures { result ≡ length (view_links s.now) }
{
    s[LINK_COUNT] as usize
}

// The number of the link at a place.
pub fn no_at(s: &[u8], i: usize) -> LinkNo
    requires fit_links { FitLinks s.now }
    requires i_bound { i < link_count s.now }
    ensures { result.0 ≡ (get_or (view_links s.now) i no_link).no }
{
    let n = get_be(s, i * LINK_WIDTH, U64);
    LinkNo(n)
}

// The place of link n. Entries are bytes of a lent region, not elements of a slice to search; and a closure that reads one would need the bound of its place once more.
pub fn find_link(s: &[u8], n: LinkNo) -> Option<usize>
    requires { FitLinks s.now }
    ensures { result ≡ scan (numbered n.0) 0 (view_links s.now) }
{
    let len = s[LINK_COUNT] as usize;
    for i in 0..len {
        if n.0 == get_be(s, i * LINK_WIDTH, U64) {
            return Some(i);
        }
    }
    None
}

// The pair that the link at a place was set up at.
pub fn setup_at(s: &[u8], i: usize) -> Pair
    requires fit_links { FitLinks s.now }
    requires i_bound { i < link_count s.now }
    ensures { view_pair result ≡ (get_or (view_links s.now) i no_link).setup }
{
    load_pair(s, i * LINK_WIDTH + SETUP)
}

// Whether the link at a place was set up at the pair.
pub fn setup_is(s: &[u8], i: usize, p: Pair) -> bool
    requires fit_links { FitLinks s.now }
    requires i_bound { i < link_count s.now }
    ensures { result ≡ same_pair (view_pair p) (get_or (view_links s.now) i no_link).setup }
{
    eq_pair_at(s, i * LINK_WIDTH + SETUP, p)
}

// Whether the link at a place was set up at the pair that a record spells from `from` on.
pub fn setup_eq_wire(s: &[u8], i: usize, rec: &[u8], from: usize) -> bool
    requires fit_links { FitLinks s.now }
    requires i_bound { i < link_count s.now }
    requires pair_in { PairIn rec.now from }
    ensures { result ≡ same_pair (pair_here (drop from rec.now)) (get_or (view_links s.now) i no_link).setup }
{
    eq_wire_pair(s, i * LINK_WIDTH + SETUP, rec, from)
}

// Whether this node dialed the link at a place.
pub fn outbound_at(s: &[u8], i: usize) -> bool
    requires fit_links { FitLinks s.now }
    requires i_bound { i < link_count s.now }
    ensures { result ≡ outward (get_or (view_links s.now) i no_link).dir }
{
    get_byte(s, i * LINK_WIDTH + DIR) == 1
}

// Whether the bundle of the link at a place released its setup.
pub fn released_at(s: &[u8], i: usize) -> bool
    requires fit_links { FitLinks s.now }
    requires i_bound { i < link_count s.now }
    ensures { result ≡ (get_or (view_links s.now) i no_link).released }
{
    get_byte(s, i * LINK_WIDTH + RELEASED) == 1
}

// Whether a path of the link at a place is at the pair and counts.
pub fn proven_at(s: &[u8], i: usize, p: Pair) -> bool
    requires fit_links { FitLinks s.now }
    requires i_bound { i < link_count s.now }
    ensures { result ≡ any (proven_at (view_pair p)) (get_or (view_links s.now) i no_link).paths }
{
    let from = i * LINK_WIDTH + PATHS;
    let end = from + PATHS_LEN;
    proves(&s[from..end], p)
}

// How many paths the link at a place has.
pub fn path_count_at(s: &[u8], i: usize) -> usize
    requires fit_links { FitLinks s.now }
    requires i_bound { i < link_count s.now }
    ensures value { result ≡ length (get_or (view_links s.now) i no_link).paths }
    ensures upper_bound { result ≤ path_cap }
{
    get_byte(s, i * LINK_WIDTH + LINK_PATH_COUNT) as usize
}

// Whether the j-th path of the link at a place is at the pair that a record spells from `from` on, and counts.
pub fn wire_proven_at(s: &[u8], i: usize, j: usize, rec: &[u8], from: usize) -> bool
    requires fit_links { FitLinks s.now }
    requires i_bound { i < link_count s.now }
    requires pair_in { PairIn rec.now from }
    requires j_in_bounds { j < length (get_or (view_links s.now) i no_link).paths }
    ensures { result ≡ proven_at (pair_here (drop from rec.now)) (get_or (get_or (view_links s.now) i no_link).paths j no_path) }
{
    let first = i * LINK_WIDTH + PATHS;
    let end = first + PATHS_LEN;
    wire_proven_path(&s[first..end], j, rec, from)
}

// The pair of the j-th path of the link at a place.
pub fn path_pair_at(s: &[u8], i: usize, j: usize) -> Pair
    requires fit_links { FitLinks s.now }
    requires i_bound { i < link_count s.now }
    requires j_in_bounds { j < length (get_or (view_links s.now) i no_link).paths }
    ensures { view_pair result ≡ (get_or (get_or (view_links s.now) i no_link).paths j no_path).pair }
{
    let first = i * LINK_WIDTH + PATHS;
    let end = first + PATHS_LEN;
    pair_at(&s[first..end], j)
}

// Whether the setup of the link at a place is in use: no paths yet, or a leg holds the link.
fn waits_at(s: &[u8], i: usize) -> bool
    requires fit_links { FitLinks s.now }
    requires i_bound { i < link_count s.now }
    ensures { result ≡ empty (get_or (view_links s.now) i no_link).paths || is_leg (get_or (view_links s.now) i no_link).holder }
{
    path_count_at(s, i) == 0 || get_byte(s, i * LINK_WIDTH + HOLDER) == 1
}

// Whether the link at a place uses the connection at the pair.
pub fn uses_at(s: &[u8], i: usize, p: Pair) -> bool
    requires fit_links { FitLinks s.now }
    requires i_bound { i < link_count s.now }
    ensures { result ≡ uses (view_pair p) (get_or (view_links s.now) i no_link) }
{
    proven_at(s, i, p) || (setup_is(s, i, p) && waits_at(s, i))
}

// Whether the index has the link at a place at the pair.
pub fn indexed_at(s: &[u8], i: usize, p: Pair) -> bool
    requires fit_links { FitLinks s.now }
    requires i_bound { i < link_count s.now }
    ensures { result ≡ indexed (view_pair p) (get_or (view_links s.now) i no_link) }
{
    proven_at(s, i, p) || (setup_is(s, i, p) && !released_at(s, i))
}

// Whether some link uses the connection at the pair.
pub fn in_use(s: &[u8], p: Pair) -> bool
    requires { FitLinks s.now }
    ensures { result ≡ in_use (view_pair p) (view_links s.now) }
{
    let n = s[LINK_COUNT] as usize;
    for i in 0..n {
        if uses_at(s, i, p) {
            return true;
        }
    }
    false
}

// Whether a path at the pair would be a fifth of the link at a place.
fn paths_full_at(s: &[u8], i: usize, p: Pair) -> bool
    requires fit_links { FitLinks s.now }
    requires i_bound { i < link_count s.now }
    ensures { result ≡ full (view_pair p) (get_or (view_links s.now) i no_link).paths }
{
    let from = i * LINK_WIDTH + PATHS;
    let end = from + PATHS_LEN;
    full_at(&s[from..end], p)
}

// Whether a path at the pair would be a fifth of link n.
pub fn paths_full(s: &[u8], n: LinkNo, p: Pair) -> bool
    requires { FitLinks s.now }
    ensures { result ≡ crowding n.0 (view_pair p) (view_links s.now) }
{
    match find_link(s, n) {
        Some(i) => paths_full_at(s, i, p),
        None => false,
    }
}

// What holds the link at a place.
fn holder_at(s: &[u8], i: usize) -> Holder
    requires fit_links { FitLinks s.now }
    requires i_bound { i < link_count s.now }
    ensures { view_holder result ≡ (get_or (view_links s.now) i no_link).holder }
{
    if get_byte(s, i * LINK_WIDTH + HOLDER) == 1 {
        return Holder::Leg;
    }
    Holder::Peer(load_fixed(s, i * LINK_WIDTH + HOLDER_PEER))
}

// Which end set up the link at a place.
fn dir_at(s: &[u8], i: usize) -> Dir
    requires fit_links { FitLinks s.now }
    requires i_bound { i < link_count s.now }
    ensures { view_dir result ≡ (get_or (view_links s.now) i no_link).dir }
{
    let code = get_byte(s, i * LINK_WIDTH + DIR);
    Dir::try_from(code).unwrap()
}

// The record at a place, by value.
pub fn get_link(s: &[u8], i: usize) -> LinkRec
    requires fit_links { FitLinks s.now }
    requires i_bound { i < link_count s.now }
    ensures { view_link result ≡ get_or (view_links s.now) i no_link }
{
    let from = i * LINK_WIDTH + PATHS;
    let end = from + PATHS_LEN;
    LinkRec {
        no: no_at(s, i),
        setup: setup_at(s, i),
        dir: dir_at(s, i),
        holder: holder_at(s, i),
        released: released_at(s, i),
        paths: load_paths(&s[from..end]),
    }
}
