// The connections that a link leaves to close.
ghost use Rattle.std.specs.Prelude.{◌≡◌, not, [], ◌∷◌, ◌++◌, ◌<◌, length, get_or, if◌then◌else◌};
ghost use Rattle.rules.specs.Base.{any, keep};
ghost use Rattle.rules.specs.Data.{same_pair};
ghost use Rattle.rules.specs.Links.{in_use, addresses, retired, retiring, released, releasing};
ghost use Rattle.node_addr.specs.View.{view_pair};
ghost use Rattle.links_entry.specs.View.{FitLinks, view_links, link_count, no_link};
ghost use Rattle.links.specs.View.{view_closes};

use crate::record::Closes;
use crate::write::{release_at, remove_link};
use links_entry::read::{find_link, in_use, path_count_at, path_pair_at, setup_at};
use node_addr::{LinkNo, Pair};

// By a name, for what it shows.
pub fn no_closes() -> Closes
    ensures { view_closes result ≡ [] }
{
    Closes::new()
}

// Whether the pair is listed.
fn listed(l: &Closes, p: Pair) -> bool
    ensures { result ≡ any (same_pair (view_pair p)) (view_closes l.now) }
{
    l.iter().any(|q| p == *q)
}

// The pair is listed, once.
fn list_once(l: &mut Closes, p: Pair)
    requires { length (view_closes l.old) < 5 }
    ensures { view_closes l.new ≡ (if any (same_pair (view_pair p)) (view_closes l.old) then view_closes l.old else (view_closes l.old ++ (view_pair p ∷ []))) }
{
    if !listed(l, p) {
        l.push(p);
    }
}

// The addresses of the link at a place: its setup, then its paths, once each.
fn address_list(s: &[u8], i: usize) -> Closes
    requires fit_links { FitLinks s.now }
    requires i_bound { i < link_count s.now }
    ensures { view_closes result ≡ addresses (get_or (view_links s.now) i no_link) }
{
    let mut out = no_closes();
    out.push(setup_at(s, i));
    let n = path_count_at(s, i);
    for j in 0..n {
        list_once(&mut out, path_pair_at(s, i, j));
    }
    out
}

// Those of the list stay that no link uses.
fn unused(s: &[u8], l: &mut Closes)
    requires { FitLinks s.now }
    ensures { view_closes l.new ≡ keep (λ p. not (in_use p (view_links s.now))) (view_closes l.old) }
{
    l.retain(|p| !in_use(s, *p));
}

// Link n goes; its addresses that no other link uses are to close.
pub fn retire(s: &mut [u8], n: LinkNo) -> Closes
    requires { FitLinks s.old }
    ensures fit_links { FitLinks s.new }
    ensures s_after { view_links s.new ≡ retired n.0 (view_links s.old) }
    ensures result_value { view_closes result ≡ retiring n.0 (view_links s.old) }
{
    let Some(i) = find_link(s, n) else {
        return no_closes();
    };
    let mut l = address_list(s, i);
    remove_link(s, i);
    unused(s, &mut l);
    l
}

// Link n's bundle released its path at the pair; `keep`: the peer may still send there. Whether the pair is to close.
pub fn release(s: &mut [u8], n: LinkNo, p: Pair, keep: bool) -> bool
    requires fit_links { FitLinks s.old }
    ensures fit_links_2 { FitLinks s.new }
    ensures s_after { view_links s.new ≡ released n.0 (view_pair p) (view_links s.old) }
    ensures else_value { (if result then (view_pair p ∷ []) else []) ≡ releasing n.0 (view_pair p) keep (view_links s.old) }
{
    let Some(i) = find_link(s, n) else {
        return false;
    };
    release_at(s, i, p);
    !keep && !in_use(s, p)
}
