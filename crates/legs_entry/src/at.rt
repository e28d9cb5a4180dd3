// Single cells of the i-th leg, read where they stand.
ghost use Rattle.std.specs.Prelude.{◌≡◌, true, false, ◌+◌, ◌*◌, ◌≤◌, ◌<◌, length, take, drop, option_map};
ghost use Rattle.rules.specs.Base.{is};
ghost use Rattle.rules.specs.Legs.{answers, stored_msg2};
ghost use Rattle.legs_entry.specs.View.{FitLegs, leg_count, leg_at};
ghost use Rattle.legs_entry.specs.At.{answer_of, Stands};
ghost use Rattle.legs_entry.specs.Layout.{at_msg1_bytes, at_msg2_bytes, leg_width};

use crate::layout::{
    ANSWER, ANSWER_SENT, DEADLINE, DIGEST, EPOCH, HAS_NEXT, HAS_PEER, LEASE, LEG_WIDTH, MSG1,
    MSG1_BYTES, MSG2, REPLACES,
};
use lib_bytes::compare::eq_bytes;
use lib_bytes::flag::{get_flag, get_option};
use lib_bytes::layout::{U32, U64};
use lib_bytes::read::{get_be, get_byte};
use node_addr::place::{load_fixed, load_optional};
use node_addr::{Digest, LinkNo, NodeAddr};

pub fn link_at(s: &[u8], i: usize) -> LinkNo
    requires fit_legs { FitLegs s.now }
    requires i_bound { i < leg_count s.now }
    ensures { result.0 ≡ (leg_at s.now i).link }
{
    LinkNo(get_be(s, i * LEG_WIDTH, U64))
}

pub fn deadline_at(s: &[u8], i: usize) -> u64
    requires fit_legs { FitLegs s.now }
    requires i_bound { i < leg_count s.now }
    ensures { result ≡ (leg_at s.now i).deadline }
{
    get_be(s, i * LEG_WIDTH + DEADLINE, U64)
}

pub fn lease_at(s: &[u8], i: usize) -> u32
    requires fit_legs { FitLegs s.now }
    requires i_bound { i < leg_count s.now }
    ensures { result ≡ (leg_at s.now i).lease }
{
    get_be(s, i * LEG_WIDTH + LEASE, U32) as u32
}

// Whether it is an answer.
pub fn answers_at(s: &[u8], i: usize) -> bool
    requires fit_legs { FitLegs s.now }
    requires i_bound { i < leg_count s.now }
    ensures { result ≡ answers (leg_at s.now i) }
{
    get_flag(s, i * LEG_WIDTH + ANSWER)
}

// The peer that it names, if it does.
pub fn peer_at(s: &[u8], i: usize) -> Option<NodeAddr>
    requires fit_legs { FitLegs s.now }
    requires i_bound { i < leg_count s.now }
    ensures { option_map (λ x. x.0) result ≡ (leg_at s.now i).peer }
{
    load_optional(s, i * LEG_WIDTH + HAS_PEER)
}

// When the next resend is due, if one is to come.
pub fn next_at(s: &[u8], i: usize) -> Option<u64>
    requires fit_legs { FitLegs s.now }
    requires i_bound { i < leg_count s.now }
    ensures { result ≡ (leg_at s.now i).next }
{
    get_option(s, i * LEG_WIDTH + HAS_NEXT)
}

// What only an answer has is blank of a dial, as in the rules' `answer_of`: who asks knows that the leg is an answer, so there is no absence to tell.
// The answered msg1's epoch.
pub fn epoch_at(s: &[u8], i: usize) -> u64
    requires fit_legs { FitLegs s.now }
    requires i_bound { i < leg_count s.now }
    ensures { result ≡ (answer_of (leg_at s.now i)).epoch }
{
    get_be(s, i * LEG_WIDTH + EPOCH, U64)
}

// The answered msg1's digest; zeros for a dial.
pub fn digest_at(s: &[u8], i: usize) -> Digest
    requires fit_legs { FitLegs s.now }
    requires i_bound { i < leg_count s.now }
    ensures { result.0 ≡ (answer_of (leg_at s.now i)).ephemeral }
{
    load_fixed(s, i * LEG_WIDTH + DIGEST)
}

// Whether the answer displaced a holder.
pub fn replaces_at(s: &[u8], i: usize) -> bool
    requires fit_legs { FitLegs s.now }
    requires i_bound { i < leg_count s.now }
    ensures { result ≡ (answer_of (leg_at s.now i)).replaces }
{
    get_flag(s, i * LEG_WIDTH + REPLACES)
}

// Whether the answer was sent.
pub fn answer_sent_at(s: &[u8], i: usize) -> bool
    requires fit_legs { FitLegs s.now }
    requires i_bound { i < leg_count s.now }
    ensures { result ≡ (answer_of (leg_at s.now i)).sent }
{
    get_flag(s, i * LEG_WIDTH + ANSWER_SENT)
}

// The length of msg1, whose bytes stand at MSG1_BYTES.
pub fn msg1_len_at(s: &[u8], i: usize) -> usize
    requires fit_legs { FitLegs s.now }
    requires i_bound { i < leg_count s.now }
    ensures { Stands (leg_at s.now i).msg1 (i * leg_width + at_msg1_bytes) result s.now }
{
    get_byte(s, i * LEG_WIDTH + MSG1) as usize
}

// The length of msg2, whose bytes stand at MSG2_BYTES; 0 for a dial.
pub fn msg2_len_at(s: &[u8], i: usize) -> usize
    requires fit_legs { FitLegs s.now }
    requires i_bound { i < leg_count s.now }
    ensures { Stands (answer_of (leg_at s.now i)).msg2 (i * leg_width + at_msg2_bytes) result s.now }
{
    get_byte(s, i * LEG_WIDTH + MSG2) as usize
}

// Whether it yields its msg2 for the n bytes from `at` on: an answer not yet sent for any, a sent one for those of its msg1.
// Never inlined: in the search over the links it would take the registers that each link needs.
#[inline(never)]
pub fn stored_at(s: &[u8], i: usize, rec: &[u8], at: usize, n: usize) -> bool
    requires fit_legs { FitLegs s.now }
    requires i_bound { i < leg_count s.now }
    requires n_in_bounds { at + n ≤ length rec.now }
    ensures { result ≡ is (stored_msg2 (take n (drop at rec.now)) (leg_at s.now i)) }
{
    if !answers_at(s, i) {
        return false;
    }
    if !answer_sent_at(s, i) {
        return true;
    }
    msg1_len_at(s, i) == n && eq_bytes(rec, at, s, i * LEG_WIDTH + MSG1_BYTES, n)
}
