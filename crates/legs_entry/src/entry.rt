// A leg written to its entry.
ghost use Rattle.std.specs.Prelude.{◌+◌, ◌≤◌, length};
ghost use Rattle.lib_laws.specs.Splice.{Wrote};
ghost use Rattle.node_addr.specs.Layout.{message_width};
ghost use Rattle.legs_entry.specs.Entry.{leg_bytes, time_bytes, answer_bytes, end_bytes, msg2_bytes};
ghost use Rattle.legs_entry.specs.Layout.{leg_width};

use crate::layout::{ANSWER_SENT, MSG1};
use crate::leg::{Answer, Leg};
use lib_bytes::flag::{put_flag, put_option};
use lib_bytes::layout::{U32, U64};
use lib_bytes::write::{clear, put_be};
use node_addr::layout::MESSAGE_WIDTH;
use node_addr::place::{put_fixed, put_message, put_optional};

// These are lent the leg and its answer, of some 370 bytes, which by value would be copied for each.
fn put_times(s: &mut [u8], at: usize, l: &Leg) -> usize
    requires { at + 33 ≤ length s.old }
    ensures { Wrote s.old at 33 (time_bytes l.now) s.new result }
{
    let a = put_be(s, at, l.link.0, U64);
    let b = put_be(s, a, l.deadline, U64);
    let c = put_option(s, b, l.next);
    let d = put_be(s, c, l.sent as u64, U32);
    put_be(s, d, l.lease as u64, U32)
}

// What stands before msg1 of an answer; zeros for a dial.
fn put_answer(s: &mut [u8], at: usize, o: &Option<Answer>) -> usize
    requires { at + 42 ≤ length s.old }
    ensures { Wrote s.old at 42 (answer_bytes o.now) s.new result }
{
    match o {
        Some(x) => {
            let a = put_flag(s, at, x.sent);
            let b = put_flag(s, a, x.replaces);
            let c = put_be(s, b, x.epoch, U64);
            put_fixed(s, c, x.digest)
        }
        None => clear(s, at, MSG1 - ANSWER_SENT),
    }
}

fn put_ends(s: &mut [u8], at: usize, l: &Leg) -> usize
    requires { at + 60 ≤ length s.old }
    ensures { Wrote s.old at 60 (end_bytes l.now) s.new result }
{
    let a = put_flag(s, at, l.answer.is_some());
    let b = put_optional(s, a, l.peer);
    put_answer(s, b, &l.answer)
}

// Zeros for a dial.
fn put_msg2(s: &mut [u8], at: usize, o: &Option<Answer>) -> usize
    requires { at + message_width ≤ length s.old }
    ensures { Wrote s.old at message_width (msg2_bytes o.now) s.new result }
{
    match o {
        Some(x) => put_message(s, at, x.msg2),
        None => clear(s, at, MESSAGE_WIDTH),
    }
}

// The bytes of a leg, at a place.
pub fn put_leg(s: &mut [u8], at: usize, l: Leg) -> usize
    requires leg_width_in_bounds { at + leg_width ≤ length s.old }
    ensures { Wrote s.old at leg_width (leg_bytes l) s.new result }
{
    let a = put_times(s, at, &l);
    let b = put_ends(s, a, &l);
    let c = put_message(s, b, l.msg1);
    put_msg2(s, c, &l.answer)
}
