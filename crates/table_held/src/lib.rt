// The held peers of the table.
#![tactic(auto)]

ghost use Rattle.std.specs.Prelude.{◌≡◌, ◌<◌, length, drop, set, option_map};
ghost use Rattle.rules.specs.Base.{alter, without};
ghost use Rattle.rules.specs.Data.{same_pair};
ghost use Rattle.rules.specs.Std.{insert};
ghost use Rattle.rules.specs.Settle as settle;
ghost use Rattle.lib_laws.specs.Scan.{scan};
ghost use Rattle.node_addr.specs.View.{view_pair};
ghost use Rattle.node_addr.specs.Place.{pair_here, PairIn};
ghost use Rattle.held.specs.View.{view_rec};
ghost use Rattle.table_layout.specs.View.{view_table, FitTable, Told, nth_held};

use held::record::Held;
use node_addr::{Digest, LinkNo, NodeAddr, Pair};
use table_layout::layout::{HELD, HELD_END};

pub fn held_count(t: &[u8]) -> usize
    requires { FitTable t.now }
    ensures { result ≡ length (view_table t.now).held }
{
    held::map::held_count(&t[HELD..HELD_END])
}

// The place of a peer.
pub fn find_held(t: &[u8], peer: NodeAddr) -> Option<usize>
    requires { FitTable t.now }
    ensures { result ≡ scan (settle.named peer.0) 0 (view_table t.now).held }
{
    held::map::find_held(&t[HELD..HELD_END], peer)
}

pub fn held_peer(t: &[u8], i: usize) -> NodeAddr
    requires fit_table { FitTable t.now }
    requires i_in_bounds { i < length (view_table t.now).held }
    ensures { result.0 ≡ (nth_held (view_table t.now) i).peer }
{
    held::at::peer_at(&t[HELD..HELD_END], i)
}

pub fn held_link(t: &[u8], i: usize) -> LinkNo
    requires fit_table { FitTable t.now }
    requires i_in_bounds { i < length (view_table t.now).held }
    ensures { result.0 ≡ (nth_held (view_table t.now) i).link }
{
    held::at::link_at(&t[HELD..HELD_END], i)
}

pub fn held_epoch(t: &[u8], i: usize) -> u64
    requires fit_table { FitTable t.now }
    requires i_in_bounds { i < length (view_table t.now).held }
    ensures { result ≡ (nth_held (view_table t.now) i).epoch }
{
    held::at::epoch_at(&t[HELD..HELD_END], i)
}

pub fn held_installed(t: &[u8], i: usize) -> u64
    requires fit_table { FitTable t.now }
    requires i_in_bounds { i < length (view_table t.now).held }
    ensures { result ≡ (nth_held (view_table t.now) i).installed }
{
    held::at::installed_at(&t[HELD..HELD_END], i)
}

pub fn held_heard(t: &[u8], i: usize) -> bool
    requires fit_table { FitTable t.now }
    requires i_in_bounds { i < length (view_table t.now).held }
    ensures { result ≡ (nth_held (view_table t.now) i).heard }
{
    held::at::heard_at(&t[HELD..HELD_END], i)
}

// When the last frame of its session was heard, if one was.
pub fn held_last(t: &[u8], i: usize) -> Option<u64>
    requires fit_table { FitTable t.now }
    requires i_in_bounds { i < length (view_table t.now).held }
    ensures { result ≡ (nth_held (view_table t.now) i).last }
{
    held::at::last_at(&t[HELD..HELD_END], i)
}

// The digest of the msg1 that was answered, if an answer of this node installed it.
pub fn held_setup(t: &[u8], i: usize) -> Option<Digest>
    requires fit_table { FitTable t.now }
    requires i_in_bounds { i < length (view_table t.now).held }
    ensures { option_map (λ d. d.0) result ≡ (nth_held (view_table t.now) i).setup }
{
    held::at::setup_at(&t[HELD..HELD_END], i)
}

// Whether the current pair is p.
pub fn current_is(t: &[u8], i: usize, p: Pair) -> bool
    requires fit_table { FitTable t.now }
    requires i_in_bounds { i < length (view_table t.now).held }
    ensures { result ≡ same_pair (view_pair p) (nth_held (view_table t.now) i).current }
{
    held::at::current_is(&t[HELD..HELD_END], i, p)
}

// A peer that is not held yet.
pub fn insert_held(t: &mut [u8], h: Held)
    requires fit_table { FitTable t.old }
    requires t_len_bound { length (view_table t.old).held < 32 }
    ensures { Told t.new (settle.with_held (insert settle.earlier_held (view_rec h) (view_table t.old).held) (view_table t.old)) }
{
    held::map::insert_held(&mut t[HELD..HELD_END], h);
}

// A peer goes, if it is held.
pub fn drop_held(t: &mut [u8], peer: NodeAddr)
    requires { FitTable t.old }
    ensures { Told t.new (settle.with_held (without (settle.named peer.0) (view_table t.old).held) (view_table t.old)) }
{
    held::map::drop_held(&mut t[HELD..HELD_END], peer);
}

// The i-th held peer restarted: another epoch.
pub fn restart_at(t: &mut [u8], i: usize, epoch: u64)
    requires fit_table { FitTable t.old }
    requires i_in_bounds { i < length (view_table t.old).held }
    ensures { Told t.new (settle.with_held (set (view_table t.old).held i (settle.with_epoch epoch (nth_held (view_table t.old) i))) (view_table t.old)) }
{
    held::restarted::set_epoch(&mut t[HELD..HELD_END], i, epoch);
}

// A frame of the i-th held peer was heard, from a pair that stands in a record. Whether the pair was the current one already.
pub fn hear_at(t: &mut [u8], i: usize, clock: u64, rec: &[u8], from: usize) -> bool
    requires fit_table { FitTable t.old }
    requires i_in_bounds { i < length (view_table t.old).held }
    requires pair_in { PairIn rec.now from }
    ensures told { Told t.new (settle.with_held (set (view_table t.old).held i (settle.heard_from clock (pair_here (drop from rec.now)) (nth_held (view_table t.old) i))) (view_table t.old)) }
    ensures value { result ≡ same_pair (pair_here (drop from rec.now)) (nth_held (view_table t.old) i).current }
{
    held::heard::hear_at(&mut t[HELD..HELD_END], i, clock, rec, from)
}

// A peer moves onto another link.
pub fn move_peer(t: &mut [u8], peer: NodeAddr, link: LinkNo, from: Pair)
    requires fit_table { FitTable t.old }
    ensures { Told t.new (settle.with_held (alter (settle.named peer.0) (settle.moved_to link.0 (view_pair from)) (view_table t.old).held) (view_table t.old)) }
{
    held::moved::move_peer(&mut t[HELD..HELD_END], peer, link, from);
}
