// The steps that change legs.
ghost use Rattle.legs.specs.View.{FitLegs};

use legs::change::{mark_sent, mark_unsent, resent_at};
use legs::leg::{Answer, Leg, answer_leg, dial_leg};
use legs::map::{drop_leg, leg_count, push_leg};
use node_addr::LinkNo;
use test_script::values::{digest, message, node, settings};

// A dial with so many resends.
fn dial(n: u64, clock: u64, resends: u64) -> Leg {
    let mut c = settings();
    c.resends = (resends % 4294967296) as u32;
    dial_leg(c, clock, LinkNo(n), node(34), message(65), 11)
}

// An answer to the msg1 of byte 66, which would replace a holder.
fn answer(n: u64, clock: u64) -> Leg {
    let a = Answer {
        sent: false,
        replaces: true,
        epoch: 5,
        digest: digest(9),
        msg2: message(67),
    };
    answer_leg(settings(), clock, LinkNo(n), node(51), message(66), 12, a)
}

// A new leg, where there is room.
fn push(s: &mut [u8], l: Leg)
    requires { FitLegs s.old }
    ensures { FitLegs s.new }
{
    if leg_count(s) < 32 {
        push_leg(s, l);
    }
}

// A resend of the leg at a place went out.
fn resent(s: &mut [u8], i: usize, clock: u64)
    requires { FitLegs s.old }
    ensures { FitLegs s.new }
{
    if i < leg_count(s) {
        resent_at(s, i, clock, settings());
    }
}

// The leg at a place was sent, or could not be sent.
fn mark(s: &mut [u8], i: usize, sent: bool)
    requires { FitLegs s.old }
    ensures { FitLegs s.new }
{
    if i < leg_count(s) {
        if sent {
            mark_sent(s, i);
        } else {
            mark_unsent(s, i);
        }
    }
}

pub fn change_legs(s: &mut [u8], word: u8, a: u64, b: u64, c: u64)
    requires { FitLegs s.old }
    ensures { FitLegs s.new }
{
    match word {
        b'D' => push(s, dial(a, b, c)),
        b'A' => push(s, answer(a, b)),
        b'R' => resent(s, a as usize, b),
        b'S' => mark(s, a as usize, true),
        b'U' => mark(s, a as usize, false),
        b'G' => drop_leg(s, LinkNo(a)),
        _ => {}
    }
}
