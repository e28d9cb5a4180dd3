// The calls of a peer: restarted, heard, remove.
ghost use Rattle.rules.specs.Record.{restarted_fields, heard_fields, remove_fields};
ghost use Rattle.refusal.specs.Code.{number_of};
ghost use Rattle.call_contract.specs.Did.{end_of};
ghost use Rattle.call_kinds.specs.Ask.{Asked, Answers};

use call_heard::peer::{heard, restarted};
use call_remove::peer::remove;
use input_call::event::{heard_fields, remove_fields, restarted_fields};
use output_code::why_of;
use refusal::Refusal;

// 9: a held peer has another epoch.
pub fn restarted_call(
    t: &mut [u8],
    out: &mut [u8],
    s: &[u8],
    at: usize,
    clock: u64,
) -> Result<usize, Refusal>
    requires { Asked restarted_fields clock at s.now t.old out.old }
    ensures { Answers restarted_fields clock at s.now t.old out.old t.new out.new (number_of result) (end_of 0 result) }
{
    let r = restarted_fields(s, at).ok_or(Refusal::Record)?;
    Ok(restarted(t, out, 0, r.peer, r.epoch))
}

// 10: a frame of a peer came.
pub fn heard_call(
    t: &mut [u8],
    out: &mut [u8],
    s: &[u8],
    at: usize,
    clock: u64,
) -> Result<usize, Refusal>
    requires { Asked heard_fields clock at s.now t.old out.old }
    ensures { Answers heard_fields clock at s.now t.old out.old t.new out.new (number_of result) (end_of 0 result) }
{
    let r = heard_fields(s, at).ok_or(Refusal::Record)?;
    Ok(heard(t, out, 0, r.peer, s, r.from, clock))
}

// 11: a peer goes.
pub fn remove_call(
    t: &mut [u8],
    out: &mut [u8],
    s: &[u8],
    at: usize,
    clock: u64,
) -> Result<usize, Refusal>
    requires { Asked remove_fields clock at s.now t.old out.old }
    ensures { Answers remove_fields clock at s.now t.old out.old t.new out.new (number_of result) (end_of 0 result) }
{
    let r = remove_fields(s, at).ok_or(Refusal::Record)?;
    Ok(remove(t, out, 0, r.peer, why_of(r.why), clock))
}
