// The calls of a msg1: arrived, msg1, replacement.
ghost use Rattle.rules.specs.Record.{arrived_fields, msg1_fields, replacement_fields};
ghost use Rattle.refusal.specs.Code.{number_of};
ghost use Rattle.call_contract.specs.Did.{end_of};
ghost use Rattle.call_kinds.specs.Ask.{Asked, Answers};

use call_msg1::arrived::arrived;
use call_msg1::msg1::{msg1, replacement};
use input_call::handshake::{arrived_fields, msg1_fields, replacement_fields};
use refusal::Refusal;

// 3: a msg1 came, and is not read yet.
pub fn arrived_call(
    t: &mut [u8],
    out: &mut [u8],
    s: &[u8],
    at: usize,
    clock: u64,
) -> Result<usize, Refusal>
    requires { Asked arrived_fields clock at s.now t.old out.old }
    ensures { Answers arrived_fields clock at s.now t.old out.old t.new out.new (number_of result) (end_of 0 result) }
{
    let r = arrived_fields(s, at).ok_or(Refusal::Record)?;
    Ok(arrived(t, out, 0, s, r.from, r.message))
}

// 4: a msg1 was read and verified.
pub fn msg1_call(
    t: &mut [u8],
    out: &mut [u8],
    s: &[u8],
    at: usize,
    clock: u64,
) -> Result<usize, Refusal>
    requires { Asked msg1_fields clock at s.now t.old out.old }
    ensures { Answers msg1_fields clock at s.now t.old out.old t.new out.new (number_of result) (end_of 0 result) }
{
    let r = msg1_fields(s, at).ok_or(Refusal::Record)?;
    msg1(t, out, 0, s, r.hello, r.reachable, clock)
}

// 5: a msg1 that is to replace a session.
pub fn replacement_call(
    t: &mut [u8],
    out: &mut [u8],
    s: &[u8],
    at: usize,
    clock: u64,
) -> Result<usize, Refusal>
    requires { Asked replacement_fields clock at s.now t.old out.old }
    ensures { Answers replacement_fields clock at s.now t.old out.old t.new out.new (number_of result) (end_of 0 result) }
{
    let r = replacement_fields(s, at).ok_or(Refusal::Record)?;
    replacement(t, out, 0, s, r.hello, clock)
}
