// The calls of a msg1: one that came before is answered as then, one of the same session is a rekey, any other asks to be admitted.
ghost use Rattle.std.specs.Prelude.{◌≡◌, true, [], ◌∷◌, ◌+◌, ◌<◌, ◌^◌, length, drop};
ghost use Rattle.rules.specs.Data as shape;
ghost use Rattle.rules.specs.Data.{Output, Rekey, Free};
ghost use Rattle.rules.specs.Settle as rule;
ghost use Rattle.node_addr.specs.Place.{pair_here, PairIn};
ghost use Rattle.legs.specs.At.{answer_of};
ghost use Rattle.input_call.specs.Hello.{hello_of, FitHello};
ghost use Rattle.output_record.specs.Write.{Puts};
ghost use Rattle.table_layout.specs.View.{view_table, FitTable, nth_leg, nth_held};
ghost use Rattle.refusal.specs.Code.{number_of};
ghost use Rattle.call_contract.specs.Did.{Space, Ruled, end_of};
ghost use Rattle.call_contract.specs.Sound.{Ready};

use call_admit::admit::{admit, admit_held, admit_new};
use call_admit::put::put_msg2;
use call_limits::numbers_exhausted;
use gates_types::Source;
use input_call::hello::Hello;
use node_addr::place::load_wire_pair;
use output_record::put::{put_free, put_rekey};
use refusal::Refusal;
use table_held::{find_held, held_epoch};
use table_query::{attributed, stored};

// The msg2 of the i-th leg once more; the lease of the msg1 is freed.
fn repeat(t: &[u8], out: &mut [u8], at: usize, i: usize, lease: u32) -> usize
    requires fit_table { FitTable t.now }
    requires i_in_bounds { i < length (view_table t.now).legs }
    requires space { Space out.old at (Output.Answer (nth_leg (view_table t.now) i).link true (answer_of (nth_leg (view_table t.now) i)).msg2 ∷ Free lease ∷ []) }
    ensures { Puts out.old at (Output.Answer (nth_leg (view_table t.now) i).link true (answer_of (nth_leg (view_table t.now) i)).msg2 ∷ Free lease ∷ []) out.new result }
{
    let a = put_msg2(t, out, at, i, true);
    put_free(out, a, lease)
}

// The i-th held peer rekeys.
fn rekey(
    t: &[u8],
    out: &mut [u8],
    at: usize,
    i: usize,
    s: &[u8],
    h: Hello,
    reachable: bool,
) -> usize
    requires fit_table { FitTable t.now }
    requires i_in_bounds { i < length (view_table t.now).held }
    requires pair_in { PairIn s.now h.from }
    requires space { Space out.old at (Rekey h.peer.0 (rule.attributed (nth_held (view_table t.now) i) (pair_here (drop h.from s.now)) (view_table t.now)) reachable ∷ Free h.lease ∷ []) }
    ensures { Puts out.old at (Rekey h.peer.0 (rule.attributed (nth_held (view_table t.now) i) (pair_here (drop h.from s.now)) (view_table t.now)) reachable ∷ Free h.lease ∷ [])
        out.new result }
{
    let peer = h.peer;
    let pair = load_wire_pair(s, h.from);
    let on_link = attributed(t, i, pair);
    let a = put_rekey(out, at, peer, on_link, reachable);
    put_free(out, a, h.lease)
}

// The i-th holder is the peer's: the same epoch is a rekey, another a restart.
fn held_msg1(
    t: &mut [u8],
    out: &mut [u8],
    at: usize,
    i: usize,
    s: &[u8],
    h: Hello,
    reachable: bool,
    clock: u64,
) -> Result<usize, Refusal>
    requires ready { Ready t.old }
    requires fit_hello { FitHello s.now h }
    requires t_bound { (view_table t.old).next + 1 < 2 ^ 64 }
    requires t_value { rule.stored (hello_of s.now h).from (hello_of s.now h).bytes (view_table t.old) ≡ None }
    requires i_in_bounds { i < length (view_table t.old).held }
    requires t_value_2 { rule.held_at h.peer.0 (view_table t.old) ≡ Some (nth_held (view_table t.old) i) }
    requires space { Space out.old at (rule.msg1 clock (hello_of s.now h) reachable (view_table t.old)).step.outs }
    ensures { Ruled t.old out.old at t.new out.new (number_of result) (end_of at result)
        (rule.msg1 clock (hello_of s.now h) reachable (view_table t.old)) }
{
    let e = held_epoch(t, i);
    if e != h.epoch {
        return admit_held(t, out, at, i, s, h, Source::Restart, clock);
    }
    Ok(rekey(t, out, at, i, s, h, reachable))
}

// No msg2 is stored for it.
fn new_msg1(
    t: &mut [u8],
    out: &mut [u8],
    at: usize,
    s: &[u8],
    h: Hello,
    reachable: bool,
    clock: u64,
) -> Result<usize, Refusal>
    requires ready { Ready t.old }
    requires fit_hello { FitHello s.now h }
    requires t_bound { (view_table t.old).next + 1 < 2 ^ 64 }
    requires t_value { rule.stored (hello_of s.now h).from (hello_of s.now h).bytes (view_table t.old) ≡ None }
    requires space { Space out.old at (rule.msg1 clock (hello_of s.now h) reachable (view_table t.old)).step.outs }
    ensures { Ruled t.old out.old at t.new out.new (number_of result) (end_of at result)
        (rule.msg1 clock (hello_of s.now h) reachable (view_table t.old)) }
{
    match find_held(t, h.peer) {
        Some(i) => held_msg1(t, out, at, i, s, h, reachable, clock),
        None => admit_new(t, out, at, s, h, clock),
    }
}

// A number is left for one more link.
fn numbered_msg1(
    t: &mut [u8],
    out: &mut [u8],
    at: usize,
    s: &[u8],
    h: Hello,
    reachable: bool,
    clock: u64,
) -> Result<usize, Refusal>
    requires ready { Ready t.old }
    requires fit_hello { FitHello s.now h }
    requires t_bound { (view_table t.old).next + 1 < 2 ^ 64 }
    requires space { Space out.old at (rule.msg1 clock (hello_of s.now h) reachable (view_table t.old)).step.outs }
    ensures { Ruled t.old out.old at t.new out.new (number_of result) (end_of at result)
        (rule.msg1 clock (hello_of s.now h) reachable (view_table t.old)) }
{
    let m = h.message;
    match stored(t, s, h.from, m.at, m.len) {
        Some(i) => Ok(repeat(t, out, at, i, h.lease)),
        None => new_msg1(t, out, at, s, h, reachable, clock),
    }
}

// A msg1 that was read and verified; `reachable` says whether its peer is.
pub fn msg1(
    t: &mut [u8],
    out: &mut [u8],
    at: usize,
    s: &[u8],
    h: Hello,
    reachable: bool,
    clock: u64,
) -> Result<usize, Refusal>
    requires ready { Ready t.old }
    requires fit_hello { FitHello s.now h }
    requires space { Space out.old at (rule.step clock (shape.Call.Msg1 (hello_of s.now h) reachable) (view_table t.old)).step.outs }
    ensures { Ruled t.old out.old at t.new out.new (number_of result) (end_of at result)
        (rule.step clock (shape.Call.Msg1 (hello_of s.now h) reachable) (view_table t.old)) }
{
    if numbers_exhausted(t) {
        return Err(Refusal::Numbers);
    }
    numbered_msg1(t, out, at, s, h, reachable, clock)
}

// A msg1 that is to replace the peer's session.
pub fn replacement(
    t: &mut [u8],
    out: &mut [u8],
    at: usize,
    s: &[u8],
    h: Hello,
    clock: u64,
) -> Result<usize, Refusal>
    requires ready { Ready t.old }
    requires fit_hello { FitHello s.now h }
    requires space { Space out.old at (rule.step clock (shape.Call.Replacement (hello_of s.now h)) (view_table t.old)).step.outs }
    ensures { Ruled t.old out.old at t.new out.new (number_of result) (end_of at result)
        (rule.step clock (shape.Call.Replacement (hello_of s.now h)) (view_table t.old)) }
{
    if numbers_exhausted(t) {
        return Err(Refusal::Numbers);
    }
    admit(t, out, at, s, h, Source::Replacement, clock)
}
