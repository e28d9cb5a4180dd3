// A msg1 that was read and verified: rejected, refused, or answered.
ghost use Rattle.std.specs.Prelude.{◌≡◌, false, ◌+◌, ◌<◌, ◌^◌, length};
ghost use Rattle.rules.specs.Data as shape;
ghost use Rattle.rules.specs.Settle as rule;
ghost use Rattle.gates_types.specs.View.{source_of};
ghost use Rattle.input_call.specs.Hello.{hello_of, FitHello};
ghost use Rattle.table_layout.specs.View.{view_table, nth_held};
ghost use Rattle.refusal.specs.Code.{number_of};
ghost use Rattle.call_contract.specs.Did.{Space, Ruled, end_of};
ghost use Rattle.call_contract.specs.Sound.{Ready};

use crate::answer::answer;
use crate::displace::displace;
use crate::put::reject;
use crate::ruling::{denied, denied_new};
use call_limits::room_refusal;
use gates_types::Source;
use input_call::hello::Hello;
use refusal::Refusal;
use table_held::find_held;

// A peer that is not held needs room.
fn enter(
    t: &mut [u8],
    out: &mut [u8],
    at: usize,
    s: &[u8],
    h: Hello,
    clock: u64,
) -> Result<usize, Refusal>
    requires ready { Ready t.old }
    requires fit_hello { FitHello s.now h }
    requires t_bound { (view_table t.old).next + 1 < 2 ^ 64 }
    requires space { Space out.old at (rule.entering h.peer.0 (view_table t.old) (rule.ok (rule.answer clock (hello_of s.now h) false (view_table t.old)))).step.outs }
    ensures { Ruled t.old out.old at t.new out.new (number_of result) (end_of at result)
        (rule.entering h.peer.0 (view_table t.old) (rule.ok (rule.answer clock (hello_of s.now h) false (view_table t.old)))) }
{
    room_refusal(t, h.peer)?;
    Ok(answer(t, out, at, s, h, false, clock))
}

// A peer that is not held is judged, and rejected, as such.
pub fn admit_new(
    t: &mut [u8],
    out: &mut [u8],
    at: usize,
    s: &[u8],
    h: Hello,
    clock: u64,
) -> Result<usize, Refusal>
    requires ready { Ready t.old }
    requires fit_hello { FitHello s.now h }
    requires t_bound { (view_table t.old).next + 1 < 2 ^ 64 }
    requires t_value { rule.held_at h.peer.0 (view_table t.old) ≡ None }
    requires space { Space out.old at (rule.admit clock shape.Source.NotHeld (hello_of s.now h) (view_table t.old)).step.outs }
    ensures { Ruled t.old out.old at t.new out.new (number_of result) (end_of at result)
        (rule.admit clock shape.Source.NotHeld (hello_of s.now h) (view_table t.old)) }
{
    match denied_new(t, h.peer, h.digest, h.epoch, clock) {
        Ok(()) => enter(t, out, at, s, h, clock),
        Err(why) => Ok(reject(out, at, h.peer, Source::NotHeld, why, h.lease)),
    }
}

// The i-th holder is the peer's.
pub fn admit_held(
    t: &mut [u8],
    out: &mut [u8],
    at: usize,
    i: usize,
    s: &[u8],
    h: Hello,
    source: Source,
    clock: u64,
) -> Result<usize, Refusal>
    requires ready { Ready t.old }
    requires fit_hello { FitHello s.now h }
    requires i_in_bounds { i < length (view_table t.old).held }
    requires t_value { rule.held_at h.peer.0 (view_table t.old) ≡ Some (nth_held (view_table t.old) i) }
    requires t_bound { (view_table t.old).next + 1 < 2 ^ 64 }
    requires space { Space out.old at (rule.admit clock (source_of source) (hello_of s.now h) (view_table t.old)).step.outs }
    ensures { Ruled t.old out.old at t.new out.new (number_of result) (end_of at result)
        (rule.admit clock (source_of source) (hello_of s.now h) (view_table t.old)) }
{
    match denied(t, i, h.peer, h.digest, h.epoch, source, clock) {
        Ok(()) => Ok(displace(t, out, at, i, s, h, source, clock)),
        Err(why) => Ok(reject(out, at, h.peer, source, why, h.lease)),
    }
}

// The msg1 is from `source` if its peer is held.
pub fn admit(
    t: &mut [u8],
    out: &mut [u8],
    at: usize,
    s: &[u8],
    h: Hello,
    source: Source,
    clock: u64,
) -> Result<usize, Refusal>
    requires ready { Ready t.old }
    requires fit_hello { FitHello s.now h }
    requires t_bound { (view_table t.old).next + 1 < 2 ^ 64 }
    requires space { Space out.old at (rule.admit clock (source_of source) (hello_of s.now h) (view_table t.old)).step.outs }
    ensures { Ruled t.old out.old at t.new out.new (number_of result) (end_of at result)
        (rule.admit clock (source_of source) (hello_of s.now h) (view_table t.old)) }
{
    match find_held(t, h.peer) {
        Some(i) => admit_held(t, out, at, i, s, h, source, clock),
        None => admit_new(t, out, at, s, h, clock),
    }
}
