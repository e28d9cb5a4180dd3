// A new link and leg for a msg1 that is admitted.
ghost use Rattle.std.specs.Prelude.{◌≡◌, ◌+◌, ◌<◌, ◌^◌, length};
ghost use Rattle.rules.specs.Legs.{answer_leg};
ghost use Rattle.rules.specs.Settle as rule;
ghost use Rattle.legs.specs.View.{view_leg};
ghost use Rattle.input_call.specs.Hello.{hello_of, FitHello};
ghost use Rattle.table_layout.specs.View.{view_table, FitTable};
ghost use Rattle.call_contract.specs.Did.{Space, Did};

use crate::put::put_msg2;
use input_call::hello::Hello;
use input_cursor::message_of;
use legs::leg::{Answer, Leg, answer_leg};
use links::record::Dir;
use node_addr::LinkNo;
use node_addr::place::load_wire_pair;
use table_layout::head::{next_no, params_of};
use table_legs::leg_count;
use table_legs::open::open_leg;

// The leg of the next link, with both messages.
fn next_leg(t: &[u8], s: &[u8], h: Hello, replaces: bool, clock: u64) -> Leg
    requires fit_table { FitTable t.now }
    requires fit_hello { FitHello s.now h }
    ensures { view_leg result ≡ answer_leg (view_table t.now).params clock (view_table t.now).next (hello_of s.now h) replaces }
{
    let c = params_of(t);
    let n = LinkNo(next_no(t));
    let msg1 = message_of(s, h.message);
    let answer = Answer {
        sent: false,
        replaces,
        epoch: h.epoch,
        digest: h.digest,
        msg2: message_of(s, h.msg2),
    };
    answer_leg(c, clock, n, h.peer, msg1, h.lease, answer)
}

// The msg2 that is written stands in the new leg, the last.
pub fn answer(
    t: &mut [u8],
    out: &mut [u8],
    at: usize,
    s: &[u8],
    h: Hello,
    replaces: bool,
    clock: u64,
) -> usize
    requires fit_table { FitTable t.old }
    requires fit_hello { FitHello s.now h }
    requires t_len_bound { length (view_table t.old).links < 32 }
    requires t_len_bound_2 { length (view_table t.old).legs < 32 }
    requires t_bound { (view_table t.old).next + 1 < 2 ^ 64 }
    requires space { Space out.old at (rule.answer clock (hello_of s.now h) replaces (view_table t.old)).outs }
    ensures { Did out.old at t.new out.new result (rule.answer clock (hello_of s.now h) replaces (view_table t.old)) }
{
    let pair = load_wire_pair(s, h.from);
    let leg = next_leg(t, s, h, replaces, clock);
    open_leg(t, pair, Dir::Inbound, leg);
    let k = leg_count(t);
    put_msg2(t, out, at, k - 1, false)
}
