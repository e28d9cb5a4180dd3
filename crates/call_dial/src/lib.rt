// Call 1: this node dials a peer.
#![tactic(auto)]

ghost use Rattle.std.specs.Prelude.{◌+◌, ◌^◌, ◌<◌, length};
ghost use Rattle.rules.specs.Data.{Call};
ghost use Rattle.rules.specs.Settle as rule;
ghost use Rattle.node_addr.specs.View.{view_pair};
ghost use Rattle.node_addr.specs.Padded.{view};
ghost use Rattle.table_layout.specs.View.{view_table, FitTable};
ghost use Rattle.call_contract.specs.Sound.{Ready};
ghost use Rattle.refusal.specs.Code.{number_of};
ghost use Rattle.call_contract.specs.Did.{Space, Did, Ruled, end_of};

use call_limits::{numbers_exhausted, room_refusal};
use legs::leg::dial_leg;
use links::record::Dir;
use node_addr::{LinkNo, Message, NodeAddr, Pair};
use output_record::put::put_opened;
use refusal::Refusal;
use table_layout::head::{next_no, params_of};
use table_legs::open::open_leg;

// The next link, set up at the pair, with the leg of the dial.
fn open_dial(
    t: &mut [u8],
    out: &mut [u8],
    at: usize,
    peer: NodeAddr,
    to: Pair,
    msg1: Message,
    lease: u32,
    clock: u64,
) -> usize
    requires fit_table { FitTable t.old }
    requires t_len_bound { length (view_table t.old).links < 32 }
    requires t_len_bound_2 { length (view_table t.old).legs < 32 }
    requires t_bound { (view_table t.old).next + 1 < 2 ^ 64 }
    requires space { Space out.old at (rule.dial clock peer.0 (view_pair to) (view msg1) lease (view_table t.old)).outs }
    ensures { Did out.old at t.new out.new result (rule.dial clock peer.0 (view_pair to) (view msg1) lease (view_table t.old)) }
{
    let n = next_no(t);
    let c = params_of(t);
    let leg = dial_leg(c, clock, LinkNo(n), peer, msg1, lease);
    open_leg(t, to, Dir::Outbound, leg);
    put_opened(out, at, LinkNo(n))
}

// The link opened, or refusal 4, 5 or 6.
pub fn dial(
    t: &mut [u8],
    out: &mut [u8],
    at: usize,
    peer: NodeAddr,
    to: Pair,
    msg1: Message,
    lease: u32,
    clock: u64,
) -> Result<usize, Refusal>
    requires ready { Ready t.old }
    requires space { Space out.old at (rule.step clock (Call.Dial peer.0 (view_pair to) (view msg1) lease) (view_table t.old)).step.outs }
    ensures { Ruled t.old out.old at t.new out.new (number_of result) (end_of at result) (rule.step clock (Call.Dial peer.0 (view_pair to) (view msg1) lease) (view_table t.old)) }
{
    if numbers_exhausted(t) {
        return Err(Refusal::Numbers);
    }
    room_refusal(t, peer)?;
    Ok(open_dial(t, out, at, peer, to, msg1, lease, clock))
}
