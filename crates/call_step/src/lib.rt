// One call on the table: the step of its kind; and those of a msg1.
#![tactic(auto)]

pub mod asks;

ghost use Rattle.std.specs.Prelude.{◌≤◌};
ghost use Rattle.input_call.specs.Read.{kind_fields};
ghost use Rattle.input_frame.specs.Kind.{code_of};
ghost use Rattle.refusal.specs.Code.{number_of};
ghost use Rattle.call_contract.specs.Did.{end_of};
ghost use Rattle.call_kinds.specs.Ask.{Asked, Answers};

use crate::asks::{arrived_call, msg1_call, replacement_call};
use call_kinds::dials::{abandon_call, dial_call, msg2_call, sent_call, unsent_call};
use call_kinds::paths::{path_call, release_call};
use call_kinds::peers::{heard_call, remove_call, restarted_call};
use call_kinds::times::{close_call, poll_call, wake_call};
use input_frame::kind::Kind;
use refusal::Refusal;

// The step of a kind; a new is no call.
fn kind_step(
    t: &mut [u8],
    out: &mut [u8],
    s: &[u8],
    at: usize,
    kind: Kind,
    clock: u64,
) -> Result<usize, Refusal>
    requires { Asked (kind_fields (code_of kind)) clock at s.now t.old out.old }
    ensures { Answers (kind_fields (code_of kind)) clock at s.now t.old out.old t.new out.new (number_of result) (end_of 0 result) }
{
    match kind {
        Kind::Dial => dial_call(t, out, s, at, clock),
        Kind::Abandon => abandon_call(t, out, s, at, clock),
        Kind::Arrived => arrived_call(t, out, s, at, clock),
        Kind::Msg1 => msg1_call(t, out, s, at, clock),
        Kind::Replacement => replacement_call(t, out, s, at, clock),
        Kind::Sent => sent_call(t, out, s, at, clock),
        Kind::Unsent => unsent_call(t, out, s, at, clock),
        Kind::Msg2 => msg2_call(t, out, s, at, clock),
        Kind::Restarted => restarted_call(t, out, s, at, clock),
        Kind::Heard => heard_call(t, out, s, at, clock),
        Kind::Remove => remove_call(t, out, s, at, clock),
        Kind::Poll => poll_call(t, out, s, at, clock),
        Kind::Close => close_call(t, out, s, at, clock),
        Kind::Path => path_call(t, out, s, at, clock),
        Kind::Release => release_call(t, out, s, at, clock),
        Kind::Wake => wake_call(t, out, s, at, clock),
        Kind::New => Err(Refusal::Record),
    }
}

// The step of a call, whose fields stand in the record from `at` on; its outputs begin at the buffer's start.
pub fn step(
    t: &mut [u8],
    out: &mut [u8],
    s: &[u8],
    at: usize,
    kind: u8,
    clock: u64,
) -> Result<usize, Refusal>
    requires { Asked (kind_fields kind) clock at s.now t.old out.old }
    ensures { Answers (kind_fields kind) clock at s.now t.old out.old t.new out.new (number_of result) (end_of 0 result) }
{
    match Kind::try_from(kind) {
        Ok(kind) => kind_step(t, out, s, at, kind, clock),
        Err(_) => Err(Refusal::Record),
    }
}
