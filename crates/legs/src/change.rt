// Changes of the i-th leg, in place.
ghost use Rattle.std.specs.Prelude.{◌≡◌, ◌<◌, set};
ghost use Rattle.rules.specs.Legs.{resent, mark_sent, mark_unsent};
ghost use Rattle.params.specs.View.{view_params};
ghost use Rattle.legs_entry.specs.Start.{resend_after};
ghost use Rattle.legs_entry.specs.View.{FitLegs, view_legs, leg_count, leg_at};

use legs_entry::layout::{ANSWER, ANSWER_SENT, HAS_NEXT, LEG_WIDTH, REPLACES, SENT};
use lib_bytes::flag::put_option;
use lib_bytes::layout::U32;
use lib_bytes::read::{get_be, get_byte};
use lib_bytes::write::{put_be, put_byte};
use params::Params;
use params::time::{one_more, resend_at};

// The resend after n of them, where more are left.
fn resend_after(c: Params, clock: u64, n: u32) -> Option<u64>
    ensures { result ≡ resend_after (view_params c) clock n }
{
    if n < c.resends {
        Some(resend_at(clock, n, c.resend))
    } else {
        None
    }
}

// A resend went out: it is counted, and the next is due after twice the interval.
pub fn resent_at(s: &mut [u8], i: usize, clock: u64, c: Params)
    requires fit_legs { FitLegs s.old }
    requires i_bound { i < leg_count s.old }
    ensures fit_legs_2 { FitLegs s.new }
    ensures s_after { view_legs s.new ≡ set (view_legs s.old) i (resent (view_params c) clock (leg_at s.old i)) }
{
    let n = one_more(get_be(s, i * LEG_WIDTH + SENT, U32) as u32);
    let next = resend_after(c, clock, n);
    let a = put_option(s, i * LEG_WIDTH + HAS_NEXT, next);
    put_be(s, a, n as u64, U32);
}

// The answer was sent: its mark becomes the answer's flag, so that a dial gets none.
pub fn mark_sent(s: &mut [u8], i: usize)
    requires fit_legs { FitLegs s.old }
    requires i_bound { i < leg_count s.old }
    ensures fit_legs_2 { FitLegs s.new }
    ensures s_after { view_legs s.new ≡ set (view_legs s.old) i (mark_sent (leg_at s.old i)) }
{
    let b = get_byte(s, i * LEG_WIDTH + ANSWER);
    put_byte(s, i * LEG_WIDTH + ANSWER_SENT, b);
}

// The answer could not be sent: it replaces nothing.
pub fn mark_unsent(s: &mut [u8], i: usize)
    requires fit_legs { FitLegs s.old }
    requires i_bound { i < leg_count s.old }
    ensures fit_legs_2 { FitLegs s.new }
    ensures s_after { view_legs s.new ≡ set (view_legs s.old) i (mark_unsent (leg_at s.old i)) }
{
    put_byte(s, i * LEG_WIDTH + REPLACES, 0);
}
