// A leg by value.
ghost use Rattle.std.specs.Prelude.{◌≡◌};
ghost use Rattle.rules.specs.Data.{Pair};
ghost use Rattle.rules.specs.Legs.{dial_leg, answer_leg};
ghost use Rattle.params.specs.View.{view_params};
ghost use Rattle.node_addr.specs.Padded.{view};
ghost use Rattle.legs_entry.specs.View.{view_leg};
ghost use Rattle.legs_entry.specs.Start.{hello_of, first_resend};

use node_addr::{Digest, LinkNo, Message, NodeAddr};
use params::Params;
use params::time::deadline;

// What an answer has that a dial has not: the msg1's epoch and digest, the msg2.
#[derive(Clone, Copy)]
pub struct Answer {
    pub sent: bool,
    pub replaces: bool,
    pub epoch: u64,
    pub digest: Digest,
    pub msg2: Message,
}

// A leg without an answer is a dial.
#[derive(Clone, Copy)]
pub struct Leg {
    pub link: LinkNo,
    pub deadline: u64,
    pub next: Option<u64>,
    pub sent: u32,
    pub lease: u32,
    pub peer: Option<NodeAddr>,
    pub answer: Option<Answer>,
    pub msg1: Message,
}

// The first resend of a dial, where there are resends at all.
fn first_resend(c: Params, clock: u64) -> Option<u64>
    ensures { result ≡ first_resend (view_params c) clock }
{
    if 0 < c.resends {
        Some(deadline(clock, c.resend))
    } else {
        None
    }
}

// This node dialed.
pub fn dial_leg(c: Params, clock: u64, n: LinkNo, peer: NodeAddr, msg1: Message, lease: u32) -> Leg
    ensures { view_leg result ≡ dial_leg (view_params c) clock n.0 peer.0 (view msg1) lease }
{
    Leg {
        link: n,
        deadline: deadline(clock, c.handshake),
        next: first_resend(c, clock),
        sent: 0,
        lease,
        peer: Some(peer),
        answer: None,
        msg1,
    }
}

// This node answered a msg1, and is still to send its answer.
pub fn answer_leg(
    c: Params,
    clock: u64,
    n: LinkNo,
    peer: NodeAddr,
    msg1: Message,
    lease: u32,
    answer: Answer,
) -> Leg
    ensures { (from : Pair) → view_leg result ≡ answer_leg (view_params c) clock n.0 (hello_of peer from msg1 lease answer) answer.replaces }
{
    Leg {
        link: n,
        deadline: deadline(clock, c.handshake),
        next: None,
        sent: 0,
        lease,
        peer: Some(peer),
        answer: Some(Answer {
            sent: false,
            ..answer
        }),
        msg1,
    }
}
