// The link records of the table.
#![tactic(auto)]

ghost use Rattle.std.specs.Prelude.{◌≡◌, false, [], ◌∷◌, ◌<◌, length, if◌then◌else◌};
ghost use Rattle.rules.specs.Base.{any};
ghost use Rattle.rules.specs.Data.{same_pair, APeer};
ghost use Rattle.rules.specs.Links as rule;
ghost use Rattle.rules.specs.Settle as settle;
ghost use Rattle.lib_laws.specs.Scan.{scan};
ghost use Rattle.node_addr.specs.View.{view_pair};
ghost use Rattle.links.specs.View.{view_proven, view_closes};
ghost use Rattle.table_layout.specs.View.{view_table, FitTable, Told, nth_link};

use links::record::{Closes, Proven};
use node_addr::{LinkNo, NodeAddr, Pair};
use table_layout::layout::{LINKS, LINKS_END};

pub fn link_count(t: &[u8]) -> usize
    requires { FitTable t.now }
    ensures { result ≡ length (view_table t.now).links }
{
    links::read::link_count(&t[LINKS..LINKS_END])
}

// The place of link n.
pub fn find_link(t: &[u8], n: LinkNo) -> Option<usize>
    requires { FitTable t.now }
    ensures { result ≡ scan (rule.numbered n.0) 0 (view_table t.now).links }
{
    links::read::find_link(&t[LINKS..LINKS_END], n)
}

// The pair that the link at a place was set up at.
pub fn link_setup(t: &[u8], i: usize) -> Pair
    requires fit_table { FitTable t.now }
    requires i_in_bounds { i < length (view_table t.now).links }
    ensures result_value { view_pair result ≡ (nth_link (view_table t.now) i).setup }
{
    links::read::setup_at(&t[LINKS..LINKS_END], i)
}

// Whether it was set up at the pair.
pub fn setup_is(t: &[u8], i: usize, p: Pair) -> bool
    requires fit_table { FitTable t.now }
    requires i_in_bounds { i < length (view_table t.now).links }
    ensures { result ≡ same_pair (view_pair p) (nth_link (view_table t.now) i).setup }
{
    links::read::setup_is(&t[LINKS..LINKS_END], i, p)
}

// Whether this node dialed it.
pub fn link_outbound(t: &[u8], i: usize) -> bool
    requires fit_table { FitTable t.now }
    requires i_in_bounds { i < length (view_table t.now).links }
    ensures { result ≡ settle.outbound (nth_link (view_table t.now) i).dir }
{
    links::read::outbound_at(&t[LINKS..LINKS_END], i)
}

// Whether a path of it is at the pair and counts.
pub fn link_proven(t: &[u8], i: usize, p: Pair) -> bool
    requires fit_table { FitTable t.now }
    requires i_in_bounds { i < length (view_table t.now).links }
    ensures { result ≡ any (rule.proven_at (view_pair p)) (nth_link (view_table t.now) i).paths }
{
    links::read::proven_at(&t[LINKS..LINKS_END], i, p)
}

// Whether a path at the pair would be a fifth of link n.
pub fn paths_full(t: &[u8], n: LinkNo, p: Pair) -> bool
    requires fit_table { FitTable t.now }
    ensures { result ≡ settle.crowded n.0 (view_pair p) (view_table t.now) }
{
    links::read::paths_full(&t[LINKS..LINKS_END], n, p)
}

// Link n goes; its addresses that no other link uses are to close.
pub fn retire_link(t: &mut [u8], n: LinkNo) -> Closes
    requires { FitTable t.old }
    ensures told { Told t.new (settle.with_links (rule.retired n.0 (view_table t.old).links) (view_table t.old)) }
    ensures result_value { view_closes result ≡ rule.retiring n.0 (view_table t.old).links }
{
    links::close::retire(&mut t[LINKS..LINKS_END], n)
}

// Link n goes, where nobody asks what is to close.
pub fn drop_link(t: &mut [u8], n: LinkNo)
    requires { FitTable t.old }
    ensures { Told t.new (settle.with_links (rule.retired n.0 (view_table t.old).links) (view_table t.old)) }
{
    links::write::drop_link(&mut t[LINKS..LINKS_END], n);
}

// Link n is now held by the peer.
pub fn hold_link(t: &mut [u8], n: LinkNo, peer: NodeAddr)
    requires { FitTable t.old }
    ensures { Told t.new (settle.with_links (rule.hold n.0 (APeer peer.0) (view_table t.old).links) (view_table t.old)) }
{
    links::write::hold_link(&mut t[LINKS..LINKS_END], n, peer);
}

// Link n has a path at the pair in state v: changed, or new.
pub fn set_path(t: &mut [u8], n: LinkNo, p: Pair, v: Proven)
    requires fit_table { FitTable t.old }
    requires t_value { settle.crowded n.0 (view_pair p) (view_table t.old) ≡ false }
    ensures { Told t.new (settle.with_links (rule.path n.0 (view_pair p) (view_proven v) (view_table t.old).links) (view_table t.old)) }
{
    links::write::set_path(&mut t[LINKS..LINKS_END], n, p, v);
}

// Link n's bundle released its path at the pair; `keep`: the peer may still send there. Whether the pair is to close.
pub fn release(t: &mut [u8], n: LinkNo, p: Pair, keep: bool) -> bool
    requires fit_table { FitTable t.old }
    ensures told { Told t.new (settle.with_links (rule.released n.0 (view_pair p) (view_table t.old).links) (view_table t.old)) }
    ensures else_value { (if result then (view_pair p ∷ []) else []) ≡ rule.releasing n.0 (view_pair p) keep (view_table t.old).links }
{
    links::close::release(&mut t[LINKS..LINKS_END], n, p, keep)
}
