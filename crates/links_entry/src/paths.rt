// A link's paths in lent memory: up to four in the order they came, and their count.
ghost use Rattle.std.specs.Prelude.{◌≡◌, false, not, [], ◌∷◌, ◌++◌, map, ◌<◌, drop, get_or, set};
ghost use Rattle.rules.specs.Base.{any, keep};
ghost use Rattle.rules.specs.Links.{counts, path_at, proven_at, set_path};
ghost use Rattle.lib_laws.specs.Shift.{erase};
ghost use Rattle.lib_laws.specs.Scan.{scan};
ghost use Rattle.lib_laws.specs.Chunk.{chunks};
ghost use Rattle.node_addr.specs.View.{view_pair};
ghost use Rattle.node_addr.specs.Place.{pair_here, PairIn};
ghost use Rattle.links_entry.specs.Asking.{Sifted};
ghost use Rattle.links_entry.specs.View.{view_proven, FitPaths, view_paths, path_count, path_of, no_path, new_path, in_state, full, view_path};
ghost use Rattle.links_entry.specs.Layout.{path_cap, path_width};

use crate::layout::{PATH_CAP, PATH_COUNT, PATH_STATE, PATH_WIDTH};
use crate::record::{Path, Proven};
use lib_bytes::read::get_byte;
use lib_bytes::write::put_byte;
use lib_list::ShortList;
use lib_region::remove_chunk;
use node_addr::Pair;
use node_addr::place::{eq_pair_at, eq_wire_pair, load_pair, put_pair};

// Whether the path at a place counts.
fn counts_at(s: &[u8], j: usize) -> bool
    requires fit_paths { FitPaths s.now }
    requires j_bound { j < path_count s.now }
    ensures { result ≡ counts (path_of (get_or (chunks path_width path_cap s.now) j [])).state }
{
    get_byte(s, j * PATH_WIDTH + PATH_STATE) != Proven::Probing as u8
}

// Whether the path at a place is at the pair and counts.
fn proven_path(s: &[u8], j: usize, p: Pair) -> bool
    requires fit_paths { FitPaths s.now }
    requires j_bound { j < path_count s.now }
    ensures { result ≡ proven_at (view_pair p) (path_of (get_or (chunks path_width path_cap s.now) j [])) }
{
    eq_pair_at(s, j * PATH_WIDTH, p) && counts_at(s, j)
}

// Whether the j-th of a link's paths is at the pair that the record spells from `from` on, and counts.
pub(crate) fn wire_proven_path(s: &[u8], j: usize, rec: &[u8], from: usize) -> bool
    requires fit_paths { FitPaths s.now }
    requires j_bound { j < path_count s.now }
    requires pair_in { PairIn rec.now from }
    ensures { result ≡ proven_at (pair_here (drop from rec.now)) (path_of (get_or (chunks path_width path_cap s.now) j [])) }
{
    eq_wire_pair(s, j * PATH_WIDTH, rec, from) && counts_at(s, j)
}

// Whether a path is at the pair and counts.
pub(crate) fn proves(s: &[u8], p: Pair) -> bool
    requires { FitPaths s.now }
    ensures { result ≡ any (proven_at (view_pair p)) (view_paths s.now) }
{
    let n = s[PATH_COUNT] as usize;
    for j in 0..n {
        if proven_path(s, j, p) {
            return true;
        }
    }
    false
}

// The place of the path at the pair.
pub(crate) fn find_path(s: &[u8], p: Pair) -> Option<usize>
    requires { FitPaths s.now }
    ensures { result ≡ scan (path_at (view_pair p)) 0 (view_paths s.now) }
{
    let n = s[PATH_COUNT] as usize;
    for j in 0..n {
        if eq_pair_at(s, j * PATH_WIDTH, p) {
            return Some(j);
        }
    }
    None
}

// Whether a path at the pair would be a fifth.
pub(crate) fn full_at(s: &[u8], p: Pair) -> bool
    requires { FitPaths s.now }
    ensures { result ≡ full (view_pair p) (view_paths s.now) }
{
    s[PATH_COUNT] as usize >= PATH_CAP && find_path(s, p).is_none()
}

// The path at a place is now in state v.
fn set_state(s: &mut [u8], j: usize, v: Proven)
    requires fit_paths { FitPaths s.old }
    requires j_bound { j < path_count s.old }
    ensures fit_paths_2 { FitPaths s.new }
    ensures s_after { view_paths s.new ≡ set (view_paths s.old) j (in_state (view_proven v) (get_or (view_paths s.old) j no_path)) }
{
    put_byte(s, j * PATH_WIDTH + PATH_STATE, v as u8);
}

// One more path.
fn push_path(s: &mut [u8], p: Pair, v: Proven)
    requires fit_paths { FitPaths s.old }
    requires s_bound { path_count s.old < 4 }
    ensures fit_paths_2 { FitPaths s.new }
    ensures s_after { view_paths s.new ≡ view_paths s.old ++ (new_path (view_pair p) (view_proven v) ∷ []) }
{
    let n = s[PATH_COUNT] as usize;
    let a = put_pair(s, n * PATH_WIDTH, p);
    put_byte(s, a, v as u8);
    s[PATH_COUNT] = (n + 1) as u8;
}

// A path at the pair is in state v: changed, or new.
pub fn put_path(s: &mut [u8], p: Pair, v: Proven)
    requires fit_paths { FitPaths s.old }
    requires s_value { full (view_pair p) (view_paths s.old) ≡ false }
    ensures fit_paths_2 { FitPaths s.new }
    ensures s_after { view_paths s.new ≡ set_path (view_pair p) (view_proven v) (view_paths s.old) }
{
    match find_path(s, p) {
        Some(j) => set_state(s, j, v),
        None => push_path(s, p, v),
    }
}

// The path at a place goes.
fn remove_path(s: &mut [u8], j: usize)
    requires fit_paths { FitPaths s.old }
    requires j_bound { j < path_count s.old }
    ensures fit_paths_2 { FitPaths s.new }
    ensures s_after { view_paths s.new ≡ erase j (view_paths s.old) }
{
    remove_chunk(s, PATH_WIDTH, PATH_CAP, j);
}

// Removes the path at j if it is at the pair; the place to go on from.
fn sift(s: &mut [u8], j: usize, p: Pair) -> usize
    requires fit_paths { FitPaths s.old }
    requires j_bound { j < path_count s.old }
    ensures fit_paths_2 { FitPaths s.new }
    ensures sifted { Sifted (λ w. not (path_at (view_pair p) w)) (view_paths s.old) j (view_paths s.new) result }
{
    if eq_pair_at(s, j * PATH_WIDTH, p) {
        remove_path(s, j);
        return j;
    }
    j + 1
}

// The paths at the pair go.
pub fn drop_paths(s: &mut [u8], p: Pair)
    requires fit_paths { FitPaths s.old }
    ensures fit_paths_2 { FitPaths s.new }
    ensures s_after { view_paths s.new ≡ keep (λ w. not (path_at (view_pair p) w)) (view_paths s.old) }
{
    // Where a path goes the next one stands at j, so that j stays too.
    let mut j = 0;
    while j < s[PATH_COUNT] as usize {
        j = sift(s, j, p);
    }
}

// The state of the path at a place.
fn state_at(s: &[u8], j: usize) -> Proven
    requires fit_paths { FitPaths s.now }
    requires j_bound { j < path_count s.now }
    ensures { view_proven result ≡ (path_of (get_or (chunks path_width path_cap s.now) j [])).state }
{
    let code = get_byte(s, j * PATH_WIDTH + PATH_STATE);
    Proven::try_from(code).unwrap()
}

// The pair of the path at a place.
pub(crate) fn pair_at(s: &[u8], j: usize) -> Pair
    requires fit_paths { FitPaths s.now }
    requires j_bound { j < path_count s.now }
    ensures { view_pair result ≡ (path_of (get_or (chunks path_width path_cap s.now) j [])).pair }
{
    load_pair(s, j * PATH_WIDTH)
}

// The path at a place, by value.
fn load_path(s: &[u8], j: usize) -> Path
    requires fit_paths { FitPaths s.now }
    requires j_bound { j < path_count s.now }
    ensures { view_path result ≡ path_of (get_or (chunks path_width path_cap s.now) j []) }
{
    Path {
        pair: pair_at(s, j),
        state: state_at(s, j),
    }
}

// The paths by value.
pub(crate) fn load_paths(s: &[u8]) -> ShortList<Path, PATH_CAP>
    requires { FitPaths s.now }
    ensures { map view_path result.items ≡ view_paths s.now }
{
    let n = s[PATH_COUNT] as usize;
    let mut out = ShortList::new();
    for j in 0..n {
        out.push(load_path(s, j));
    }
    out
}
