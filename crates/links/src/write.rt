// Link records changed where they stand.
ghost use Rattle.std.specs.Prelude.{◌≡◌, false, [], ◌∷◌, ◌++◌, ◌<◌, get_or, set};
ghost use Rattle.rules.specs.Data.{APeer};
ghost use Rattle.rules.specs.Links.{opened, held_by, hold, with_path, path, retired, without_path};
ghost use Rattle.lib_laws.specs.Shift.{erase};
ghost use Rattle.node_addr.specs.View.{view_pair};
ghost use Rattle.links_entry.specs.View.{FitLinks, view_links, link_count, no_link, view_dir, view_proven, full, crowding, marked_at, cut_at};

use lib_bytes::flag::put_flag;
use lib_bytes::layout::U64;
use lib_bytes::write::{clear, put_be, put_byte};
use lib_region::remove_chunk;
use links_entry::layout::{
    HOLDER, LINK_CAP, LINK_COUNT, LINK_WIDTH, OPENED_BLANK, PATHS, PATHS_LEN, RELEASED,
};
use links_entry::paths::{drop_paths, put_path};
use links_entry::read::{find_link, released_at, setup_is};
use links_entry::record::{Dir, Proven};
use node_addr::place::{put_fixed, put_pair};
use node_addr::{LinkNo, NodeAddr, Pair};

// A link set up at the pair; a leg holds it.
pub fn open_link(s: &mut [u8], n: LinkNo, p: Pair, d: Dir)
    requires fit_links { FitLinks s.old }
    requires s_bound { link_count s.old < 32 }
    ensures fit_links_2 { FitLinks s.new }
    ensures s_after { view_links s.new ≡ view_links s.old ++ (opened n.0 (view_pair p) (view_dir d) ∷ []) }
{
    let len = s[LINK_COUNT] as usize;
    let a = put_be(s, len * LINK_WIDTH, n.0, U64);
    let b = put_pair(s, a, p);
    let c = put_byte(s, b, d as u8);
    let e = put_byte(s, c, 1);
    clear(s, e, OPENED_BLANK);
    s[LINK_COUNT] = (len + 1) as u8;
}

// The link at a place is now held by the peer.
fn hold_at(s: &mut [u8], i: usize, peer: NodeAddr)
    requires fit_links { FitLinks s.old }
    requires i_bound { i < link_count s.old }
    ensures fit_links_2 { FitLinks s.new }
    ensures s_after { view_links s.new ≡ set (view_links s.old) i (held_by (APeer peer.0) (get_or (view_links s.old) i no_link)) }
{
    let a = put_byte(s, i * LINK_WIDTH + HOLDER, 0);
    put_fixed(s, a, peer);
}

// Link n is now held by the peer.
pub fn hold_link(s: &mut [u8], n: LinkNo, peer: NodeAddr)
    requires { FitLinks s.old }
    ensures fit_links { FitLinks s.new }
    ensures s_after { view_links s.new ≡ hold n.0 (APeer peer.0) (view_links s.old) }
{
    if let Some(i) = find_link(s, n) {
        hold_at(s, i, peer);
    }
}

// The link at a place has a path at the pair in state v.
fn path_at(s: &mut [u8], i: usize, p: Pair, v: Proven)
    requires fit_links { FitLinks s.old }
    requires i_bound { i < link_count s.old }
    requires no_link_value { full (view_pair p) (get_or (view_links s.old) i no_link).paths ≡ false }
    ensures fit_links_2 { FitLinks s.new }
    ensures s_after { view_links s.new ≡ set (view_links s.old) i (with_path (view_pair p) (view_proven v) (get_or (view_links s.old) i no_link)) }
{
    let from = i * LINK_WIDTH + PATHS;
    let end = from + PATHS_LEN;
    put_path(&mut s[from..end], p, v);
}

// Link n has a path at the pair in state v: changed, or new.
pub fn set_path(s: &mut [u8], n: LinkNo, p: Pair, v: Proven)
    requires fit_links { FitLinks s.old }
    requires s_value { crowding n.0 (view_pair p) (view_links s.old) ≡ false }
    ensures fit_links_2 { FitLinks s.new }
    ensures s_after { view_links s.new ≡ path n.0 (view_pair p) (view_proven v) (view_links s.old) }
{
    if let Some(i) = find_link(s, n) {
        path_at(s, i, p, v);
    }
}

// The record at a place goes.
pub(crate) fn remove_link(s: &mut [u8], i: usize)
    requires fit_links { FitLinks s.old }
    requires i_bound { i < link_count s.old }
    ensures fit_links_2 { FitLinks s.new }
    ensures s_after { view_links s.new ≡ erase i (view_links s.old) }
{
    remove_chunk(s, LINK_WIDTH, LINK_CAP, i);
}

// The record of link n goes.
pub fn drop_link(s: &mut [u8], n: LinkNo)
    requires { FitLinks s.old }
    ensures fit_links { FitLinks s.new }
    ensures s_after { view_links s.new ≡ retired n.0 (view_links s.old) }
{
    if let Some(i) = find_link(s, n) {
        remove_link(s, i);
    }
}

// The setup of the link at a place is released where it is the pair.
fn mark_at(s: &mut [u8], i: usize, p: Pair)
    requires fit_links { FitLinks s.old }
    requires i_bound { i < link_count s.old }
    ensures fit_links_2 { FitLinks s.new }
    ensures s_after { view_links s.new ≡ set (view_links s.old) i (marked_at (view_pair p) (get_or (view_links s.old) i no_link)) }
{
    let gone = released_at(s, i) || setup_is(s, i, p);
    put_flag(s, i * LINK_WIDTH + RELEASED, gone);
}

// The paths of the link at a place that are at the pair go.
fn cut_at(s: &mut [u8], i: usize, p: Pair)
    requires fit_links { FitLinks s.old }
    requires i_bound { i < link_count s.old }
    ensures fit_links_2 { FitLinks s.new }
    ensures s_after { view_links s.new ≡ set (view_links s.old) i (cut_at (view_pair p) (get_or (view_links s.old) i no_link)) }
{
    let from = i * LINK_WIDTH + PATHS;
    let end = from + PATHS_LEN;
    drop_paths(&mut s[from..end], p);
}

// The bundle of the link at a place released its path at the pair.
pub(crate) fn release_at(s: &mut [u8], i: usize, p: Pair)
    requires fit_links { FitLinks s.old }
    requires i_bound { i < link_count s.old }
    ensures fit_links_2 { FitLinks s.new }
    ensures s_after { view_links s.new ≡ set (view_links s.old) i (without_path (view_pair p) (get_or (view_links s.old) i no_link)) }
{
    mark_at(s, i, p);
    cut_at(s, i, p);
}
