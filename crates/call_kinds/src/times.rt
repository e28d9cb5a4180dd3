// The calls with no field: poll, close, wake.
ghost use Rattle.rules.specs.Data.{Call};
ghost use Rattle.rules.specs.Field.{give};
ghost use Rattle.refusal.specs.Code.{number_of};
ghost use Rattle.call_contract.specs.Did.{end_of};
ghost use Rattle.call_kinds.specs.Ask.{Asked, Answers};

use call_close::close::close;
use call_poll::poll::poll;
use call_poll::wake::wake;
use input_call::event::no_fields;
use refusal::Refusal;

// 12: time has passed.
pub fn poll_call(
    t: &mut [u8],
    out: &mut [u8],
    s: &[u8],
    at: usize,
    clock: u64,
) -> Result<usize, Refusal>
    requires { Asked (give Call.Poll) clock at s.now t.old out.old }
    ensures { Answers (give Call.Poll) clock at s.now t.old out.old t.new out.new (number_of result) (end_of 0 result) }
{
    no_fields(s, at).ok_or(Refusal::Record)?;
    Ok(poll(t, out, 0, clock))
}

// 13: everything ends.
pub fn close_call(
    t: &mut [u8],
    out: &mut [u8],
    s: &[u8],
    at: usize,
    clock: u64,
) -> Result<usize, Refusal>
    requires { Asked (give Call.Close) clock at s.now t.old out.old }
    ensures { Answers (give Call.Close) clock at s.now t.old out.old t.new out.new (number_of result) (end_of 0 result) }
{
    no_fields(s, at).ok_or(Refusal::Record)?;
    Ok(close(t, out, 0, clock))
}

// 16: when the next poll is wanted.
pub fn wake_call(
    t: &mut [u8],
    out: &mut [u8],
    s: &[u8],
    at: usize,
    clock: u64,
) -> Result<usize, Refusal>
    requires { Asked (give Call.Wake) clock at s.now t.old out.old }
    ensures { Answers (give Call.Wake) clock at s.now t.old out.old t.new out.new (number_of result) (end_of 0 result) }
{
    no_fields(s, at).ok_or(Refusal::Record)?;
    Ok(wake(t, out, 0))
}
