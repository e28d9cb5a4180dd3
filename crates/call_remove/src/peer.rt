// The end of a holder.
ghost use Rattle.std.specs.Prelude.{◌≡◌, ◌<◌, length};
ghost use Rattle.rules.specs.Settle as rule;
ghost use Rattle.output_code.specs.Codes.{why_of};
ghost use Rattle.table_layout.specs.View.{view_table, FitTable, Told, nth_held};
ghost use Rattle.call_contract.specs.Did.{Space, Did};
ghost use Rattle.call_contract.specs.Sound.{Ready};
ghost use Rattle.call_remove.specs.Peer.{retires};

use links::close::no_closes;
use node_addr::{LinkNo, NodeAddr};
use output_closes::put_retire;
use output_code::Why;
use output_record::put::{put_remove, put_retry};
use table_gates::ended;
use table_held::{drop_held, find_held, held_epoch, held_heard, held_link, held_setup};
use table_layout::head::params_of;
use table_links::{drop_link, retire_link};

// Whether the retirement of the link lists what is to close.
pub fn closes(w: Why) -> bool
    ensures { result ≡ rule.closes (why_of w) }
{
    matches!(w, Why::Orphaned | Why::Admin | Why::Closed)
}

// Whether the peer is to be dialed again.
pub fn retries(w: Why) -> bool
    ensures { result ≡ rule.retries (why_of w) }
{
    matches!(w, Why::Disconnect | Why::Dead)
}

// What is remembered of the i-th holder, which goes: unheard, it counts as a silence.
pub fn count_silence(t: &mut [u8], i: usize, peer: NodeAddr, clock: u64)
    requires ready { Ready t.old }
    requires i_in_bounds { i < length (view_table t.old).held }
    requires t_value { rule.held_at peer.0 (view_table t.old) ≡ Some (nth_held (view_table t.old) i) }
    ensures { Told t.new (rule.with_gates (rule.parted clock (nth_held (view_table t.old) i) (view_table t.old)) (view_table t.old)) }
{
    if held_heard(t, i) {
        return;
    }
    let epoch = held_epoch(t, i);
    let setup = held_setup(t, i);
    let c = params_of(t);
    ended(t, peer, epoch, setup, clock, c);
}

// Link n goes, and its retirement is written, with what is to close or without.
fn retire(t: &mut [u8], out: &mut [u8], at: usize, n: LinkNo, lists: bool) -> usize
    requires fit_table { FitTable t.old }
    requires space { Space out.old at (retires n.0 lists (view_table t.old)).outs }
    ensures { Did out.old at t.new out.new result (retires n.0 lists (view_table t.old)) }
{
    if lists {
        let c = retire_link(t, n);
        return put_retire(out, at, n, &c);
    }
    drop_link(t, n);
    put_retire(out, at, n, &no_closes())
}

// The i-th holder, which is the peer's, goes with its link.
pub fn remove_at(
    t: &mut [u8],
    out: &mut [u8],
    at: usize,
    i: usize,
    peer: NodeAddr,
    why: Why,
    clock: u64,
) -> usize
    requires ready { Ready t.old }
    requires i_in_bounds { i < length (view_table t.old).held }
    requires t_value { rule.held_at peer.0 (view_table t.old) ≡ Some (nth_held (view_table t.old) i) }
    requires space { Space out.old at (rule.removed clock peer.0 (why_of why) (nth_held (view_table t.old) i) (view_table t.old)).outs }
    ensures { Did out.old at t.new out.new result (rule.removed clock peer.0 (why_of why) (nth_held (view_table t.old) i) (view_table t.old)) }
{
    let n = held_link(t, i);
    let lists = closes(why);
    let again = retries(why);
    count_silence(t, i, peer, clock);
    drop_held(t, peer);
    let a = put_remove(out, at, peer, why);
    let b = retire(t, out, a, n, lists);
    if again {
        return put_retry(out, b, peer);
    }
    b
}

// The peer goes with its link, if it is held.
pub fn remove(
    t: &mut [u8],
    out: &mut [u8],
    at: usize,
    peer: NodeAddr,
    why: Why,
    clock: u64,
) -> usize
    requires ready { Ready t.old }
    requires space { Space out.old at (rule.remove clock peer.0 (why_of why) (view_table t.old)).outs }
    ensures { Did out.old at t.new out.new result (rule.remove clock peer.0 (why_of why) (view_table t.old)) }
{
    match find_held(t, peer) {
        Some(i) => remove_at(t, out, at, i, peer, why, clock),
        None => at,
    }
}
