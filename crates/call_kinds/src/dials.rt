// The calls of a link's handshake: dial, abandon, sent, unsent, msg2.
ghost use Rattle.rules.specs.Data.{Call};
ghost use Rattle.rules.specs.Record.{dial_fields, link_fields, msg2_fields};
ghost use Rattle.refusal.specs.Code.{number_of};
ghost use Rattle.call_contract.specs.Did.{end_of};
ghost use Rattle.call_kinds.specs.Ask.{Asked, Answers};

use call_dial::dial;
use call_msg2::msg2;
use call_remove::leg::abandon;
use call_sent::sent::{sent, unsent};
use input_call::event::{link_fields, msg2_fields};
use input_call::handshake::dial_fields;
use refusal::Refusal;

// 1: this node dials a peer.
pub fn dial_call(
    t: &mut [u8],
    out: &mut [u8],
    s: &[u8],
    at: usize,
    clock: u64,
) -> Result<usize, Refusal>
    requires { Asked dial_fields clock at s.now t.old out.old }
    ensures { Answers dial_fields clock at s.now t.old out.old t.new out.new (number_of result) (end_of 0 result) }
{
    let r = dial_fields(s, at).ok_or(Refusal::Record)?;
    dial(t, out, 0, r.peer, r.pair, r.message, r.lease, clock)
}

// 2: the leg on a link ends.
pub fn abandon_call(
    t: &mut [u8],
    out: &mut [u8],
    s: &[u8],
    at: usize,
    clock: u64,
) -> Result<usize, Refusal>
    requires { Asked (link_fields Call.Abandon) clock at s.now t.old out.old }
    ensures { Answers (link_fields Call.Abandon) clock at s.now t.old out.old t.new out.new (number_of result) (end_of 0 result) }
{
    let r = link_fields(s, at).ok_or(Refusal::Record)?;
    Ok(abandon(t, out, 0, r.link))
}

// 6: what a leg was to send went out.
pub fn sent_call(
    t: &mut [u8],
    out: &mut [u8],
    s: &[u8],
    at: usize,
    clock: u64,
) -> Result<usize, Refusal>
    requires { Asked (link_fields Call.Sent) clock at s.now t.old out.old }
    ensures { Answers (link_fields Call.Sent) clock at s.now t.old out.old t.new out.new (number_of result) (end_of 0 result) }
{
    let r = link_fields(s, at).ok_or(Refusal::Record)?;
    Ok(sent(t, out, 0, r.link, clock))
}

// 7: an answer could not be sent.
pub fn unsent_call(
    t: &mut [u8],
    out: &mut [u8],
    s: &[u8],
    at: usize,
    clock: u64,
) -> Result<usize, Refusal>
    requires { Asked (link_fields Call.Unsent) clock at s.now t.old out.old }
    ensures { Answers (link_fields Call.Unsent) clock at s.now t.old out.old t.new out.new (number_of result) (end_of 0 result) }
{
    let r = link_fields(s, at).ok_or(Refusal::Record)?;
    unsent(t, r.link);
    Ok(0)
}

// 8: the answer to a dial.
pub fn msg2_call(
    t: &mut [u8],
    out: &mut [u8],
    s: &[u8],
    at: usize,
    clock: u64,
) -> Result<usize, Refusal>
    requires { Asked msg2_fields clock at s.now t.old out.old }
    ensures { Answers msg2_fields clock at s.now t.old out.old t.new out.new (number_of result) (end_of 0 result) }
{
    let r = msg2_fields(s, at).ok_or(Refusal::Record)?;
    Ok(msg2(t, out, 0, r.link, r.epoch, r.pair, clock))
}
