// What a msg2 makes of its dial.
#![tactic(auto)]

ghost use Rattle.std.specs.Prelude.{◌≡◌, true, false, ◌<◌, length};
ghost use Rattle.rules.specs.Legs as leg;
ghost use Rattle.rules.specs.Settle as rule;
ghost use Rattle.lib_laws.specs.Scan.{scan};
ghost use Rattle.node_addr.specs.View.{view_pair};
ghost use Rattle.output_code.specs.Codes.{transition_of};
ghost use Rattle.table_layout.specs.View.{view_table, FitTable, nth_leg, nth_held};
ghost use Rattle.call_contract.specs.Did.{Space, Did};
ghost use Rattle.call_contract.specs.Sound.{Ready};
ghost use Rattle.call_msg2.specs.Msg2.{replaced, kept, moves, met};

use call_remove::leg::end_leg;
use call_remove::peer::remove_at;
use call_sent::install::install;
use held::record::Held;
use node_addr::place::node_before;
use node_addr::{LinkNo, NodeAddr, Pair};
use output_closes::put_retire;
use output_code::{Build, Transition, Why};
use output_record::put::{put_install, put_reset};
use table_held::{find_held, held_epoch, held_link, move_peer};
use table_layout::head::me_of;
use table_legs::{drop_leg, find_leg, leg_answers, leg_lease, leg_link, leg_peer};
use table_links::{hold_link, retire_link};
use table_query::own;

// The i-th leg's dial is complete: the peer is held, heard.
pub fn dialed(
    t: &mut [u8],
    out: &mut [u8],
    at: usize,
    i: usize,
    peer: NodeAddr,
    epoch: u64,
    from: Pair,
    how: Transition,
    clock: u64,
) -> usize
    requires fit_table { FitTable t.old }
    requires i_in_bounds { i < length (view_table t.old).legs }
    requires t_len_bound { length (view_table t.old).held < 32 }
    requires space { Space out.old at (rule.dialed clock peer.0 (nth_leg (view_table t.old) i) epoch (view_pair from) (transition_of how) (view_table t.old)).outs }
    ensures { Did out.old at t.new out.new result (rule.dialed clock peer.0 (nth_leg (view_table t.old) i) epoch (view_pair from) (transition_of how) (view_table t.old)) }
{
    let n = leg_link(t, i);
    let lease = leg_lease(t, i);
    let a = put_install(out, at, peer, n, from, Build::Fresh, true, lease);
    let r = put_reset(out, a, peer, how);
    let h = Held {
        peer,
        link: n,
        epoch,
        installed: clock,
        heard: true,
        last: None,
        setup: None,
        current: from,
    };
    install(t, h);
    r
}

// The k-th held peer moves onto the i-th leg's link; its own is retired.
pub fn moveto(
    t: &mut [u8],
    out: &mut [u8],
    at: usize,
    i: usize,
    k: usize,
    peer: NodeAddr,
    from: Pair,
) -> usize
    requires fit_table { FitTable t.old }
    requires i_in_bounds { i < length (view_table t.old).legs }
    requires k_in_bounds { k < length (view_table t.old).held }
    requires space { Space out.old at (rule.moveto peer.0 (nth_leg (view_table t.old) i) (nth_held (view_table t.old) k) (view_pair from) (view_table t.old)).outs }
    ensures { Did out.old at t.new out.new result (rule.moveto peer.0 (nth_leg (view_table t.old) i) (nth_held (view_table t.old) k) (view_pair from) (view_table t.old)) }
{
    let n = leg_link(t, i);
    let lease = leg_lease(t, i);
    let old = held_link(t, k);
    let a = put_install(out, at, peer, n, from, Build::FromCarry, true, lease);
    let b = put_reset(out, a, peer, Transition::Move);
    drop_leg(t, n);
    hold_link(t, n, peer);
    let c = retire_link(t, old);
    move_peer(t, peer, n, from);
    put_retire(out, b, old, &c)
}

// The k-th held peer has another epoch: it goes, and the i-th leg's dial installs it anew.
fn replace(
    t: &mut [u8],
    out: &mut [u8],
    at: usize,
    i: usize,
    k: usize,
    peer: NodeAddr,
    epoch: u64,
    from: Pair,
    clock: u64,
) -> usize
    requires ready { Ready t.old }
    requires i_in_bounds { i < length (view_table t.old).legs }
    requires k_in_bounds { k < length (view_table t.old).held }
    requires t_value { rule.held_at peer.0 (view_table t.old) ≡ Some (nth_held (view_table t.old) k) }
    requires space { Space out.old at (replaced clock peer.0 (nth_leg (view_table t.old) i) (nth_held (view_table t.old) k) epoch (view_pair from) (view_table t.old)).outs }
    ensures { Did out.old at t.new out.new result (replaced clock peer.0 (nth_leg (view_table t.old) i) (nth_held (view_table t.old) k) epoch (view_pair from) (view_table t.old)) }
{
    let a = remove_at(t, out, at, k, peer, Why::OwnRestart, clock);
    dialed(t, out, a, i, peer, epoch, from, Transition::Replace, clock)
}

// The i-th leg ends, and the peer's session stays as it is.
fn keep(t: &mut [u8], out: &mut [u8], at: usize, i: usize, peer: NodeAddr) -> usize
    requires fit_table { FitTable t.old }
    requires i_in_bounds { i < length (view_table t.old).legs }
    requires space { Space out.old at (kept peer.0 (nth_leg (view_table t.old) i) (view_table t.old)).outs }
    ensures { Did out.old at t.new out.new result (kept peer.0 (nth_leg (view_table t.old) i) (view_table t.old)) }
{
    let a = end_leg(t, out, at, i);
    put_reset(out, a, peer, Transition::Keep)
}

// Whether the k-th held peer moves: this node dialed its link too, or comes first of the two that dialed each other.
fn own_or_first(t: &[u8], k: usize, peer: NodeAddr) -> bool
    requires fit_table { FitTable t.now }
    requires k_in_bounds { k < length (view_table t.now).held }
    ensures { result ≡ moves peer.0 (nth_held (view_table t.now) k) (view_table t.now) }
{
    own(t, k) || node_before(me_of(t), peer)
}

// The k-th held peer has the same epoch: it moves onto the i-th leg's link, or stays.
fn meet(
    t: &mut [u8],
    out: &mut [u8],
    at: usize,
    i: usize,
    k: usize,
    peer: NodeAddr,
    from: Pair,
) -> usize
    requires fit_table { FitTable t.old }
    requires i_in_bounds { i < length (view_table t.old).legs }
    requires k_in_bounds { k < length (view_table t.old).held }
    requires space { Space out.old at (met peer.0 (nth_leg (view_table t.old) i) (nth_held (view_table t.old) k) (view_pair from) (view_table t.old)).outs }
    ensures { Did out.old at t.new out.new result (met peer.0 (nth_leg (view_table t.old) i) (nth_held (view_table t.old) k) (view_pair from) (view_table t.old)) }
{
    if own_or_first(t, k, peer) {
        return moveto(t, out, at, i, k, peer, from);
    }
    keep(t, out, at, i, peer)
}

// The i-th leg, on link n, is a dial of the peer.
fn complete(
    t: &mut [u8],
    out: &mut [u8],
    at: usize,
    i: usize,
    n: LinkNo,
    peer: NodeAddr,
    epoch: u64,
    from: Pair,
    clock: u64,
) -> usize
    requires ready { Ready t.old }
    requires t_value { scan (leg.on_link n.0) 0 (view_table t.old).legs ≡ Some i }
    requires i_value { leg.answers (nth_leg (view_table t.old) i) ≡ false }
    requires named { (nth_leg (view_table t.old) i).peer ≡ Some peer.0 }
    requires space { Space out.old at (rule.msg2 clock n.0 epoch (view_pair from) (view_table t.old)).outs }
    ensures { Did out.old at t.new out.new result (rule.msg2 clock n.0 epoch (view_pair from) (view_table t.old)) }
{
    let Some(k) = find_held(t, peer) else {
        return dialed(t, out, at, i, peer, epoch, from, Transition::Promote, clock);
    };
    let old = held_epoch(t, k);
    if old != epoch {
        return replace(t, out, at, i, k, peer, epoch, from, clock);
    }
    meet(t, out, at, i, k, peer, from)
}

// A msg2 came in from a pair on link n, with its sender's epoch.
pub fn msg2(
    t: &mut [u8],
    out: &mut [u8],
    at: usize,
    n: LinkNo,
    epoch: u64,
    from: Pair,
    clock: u64,
) -> usize
    requires ready { Ready t.old }
    requires space { Space out.old at (rule.msg2 clock n.0 epoch (view_pair from) (view_table t.old)).outs }
    ensures { Did out.old at t.new out.new result (rule.msg2 clock n.0 epoch (view_pair from) (view_table t.old)) }
{
    let Some(i) = find_leg(t, n) else {
        return at;
    };
    if leg_answers(t, i) {
        return at;
    }
    let Some(peer) = leg_peer(t, i) else {
        return at;
    };
    complete(t, out, at, i, n, peer, epoch, from, clock)
}
