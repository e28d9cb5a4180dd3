// A held peer whose msg1 is admitted: its holder goes, and the msg1 is answered.
ghost use Rattle.std.specs.Prelude.{◌≡◌, true, ◌+◌, ◌<◌, ◌^◌, length};
ghost use Rattle.rules.specs.Settle as rule;
ghost use Rattle.rules.specs.Settle.{◌▸◌};
ghost use Rattle.gates_types.specs.View.{source_of};
ghost use Rattle.input_call.specs.Hello.{hello_of, FitHello};
ghost use Rattle.output_code.specs.Codes.{why_of};
ghost use Rattle.table_layout.specs.View.{view_table, Told, nth_held};
ghost use Rattle.call_contract.specs.Did.{Space, Did};
ghost use Rattle.call_contract.specs.Sound.{Ready};

use crate::answer::answer;
use call_remove::peer::remove_at;
use gates_types::Source;
use input_call::hello::Hello;
use node_addr::NodeAddr;
use output_code::Why;
use table_gates::stamp;
use table_held::held_heard;

// The i-th holder, which is the peer's, is passed over: stamped if it was heard.
pub fn stamp_at(t: &mut [u8], i: usize, peer: NodeAddr, clock: u64)
    requires ready { Ready t.old }
    requires i_in_bounds { i < length (view_table t.old).held }
    requires t_value { rule.held_at peer.0 (view_table t.old) ≡ Some (nth_held (view_table t.old) i) }
    ensures { Told t.new (rule.stamp clock (nth_held (view_table t.old) i) (view_table t.old)) }
{
    if held_heard(t, i) {
        stamp(t, peer, clock);
    }
}

// Why the holder goes.
pub fn displaces(source: Source) -> Why
    ensures { why_of result ≡ rule.displaces (source_of source) }
{
    match source {
        Source::Restart => Why::Restart,
        _ => Why::Replacement,
    }
}

// The i-th holder, which is the peer's, goes for the msg1, which is answered.
pub fn displace(
    t: &mut [u8],
    out: &mut [u8],
    at: usize,
    i: usize,
    s: &[u8],
    h: Hello,
    source: Source,
    clock: u64,
) -> usize
    requires ready { Ready t.old }
    requires fit_hello { FitHello s.now h }
    requires i_in_bounds { i < length (view_table t.old).held }
    requires t_value { rule.held_at h.peer.0 (view_table t.old) ≡ Some (nth_held (view_table t.old) i) }
    requires t_bound { (view_table t.old).next + 1 < 2 ^ 64 }
    requires space { Space out.old at (rule.removed clock h.peer.0 (rule.displaces (source_of source)) (nth_held (view_table t.old) i) (rule.stamp clock (nth_held (view_table t.old) i) (view_table t.old))
        ▸ rule.answer clock (hello_of s.now h) true).outs }
    ensures { Did out.old at t.new out.new result
        (rule.removed clock h.peer.0 (rule.displaces (source_of source)) (nth_held (view_table t.old) i) (rule.stamp clock (nth_held (view_table t.old) i) (view_table t.old))
        ▸ rule.answer clock (hello_of s.now h) true) }
{
    let peer = h.peer;
    let why = displaces(source);
    stamp_at(t, i, peer, clock);
    let a = remove_at(t, out, at, i, peer, why, clock);
    answer(t, out, a, s, h, true, clock)
}
