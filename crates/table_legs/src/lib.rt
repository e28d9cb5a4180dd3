// The handshake legs of the table.
#![tactic(auto)]

pub mod clear;
pub mod open;

ghost use Rattle.std.specs.Prelude.{◌≡◌, ◌≤◌, ◌<◌, length, set, drop, option_map};
ghost use Rattle.rules.specs.Legs as rule;
ghost use Rattle.rules.specs.Settle as settle;
ghost use Rattle.lib_laws.specs.Scan.{scan};
ghost use Rattle.params.specs.View.{view_params};
ghost use Rattle.legs.specs.At.{answer_of, resend_due, past_deadline};
ghost use Rattle.table_layout.specs.View.{view_table, FitTable, Told, nth_leg};

use legs_entry::layout::{LEG_WIDTH, MSG1_BYTES, MSG2_BYTES};
use node_addr::{Digest, LinkNo, NodeAddr};
use params::Params;
use table_layout::layout::{LEGS, LEGS_END};

pub fn leg_count(t: &[u8]) -> usize
    requires { FitTable t.now }
    ensures { result ≡ length (view_table t.now).legs }
{
    legs::map::leg_count(&t[LEGS..LEGS_END])
}

// The place of the leg on a link.
pub fn find_leg(t: &[u8], n: LinkNo) -> Option<usize>
    requires { FitTable t.now }
    ensures { result ≡ scan (rule.on_link n.0) 0 (view_table t.now).legs }
{
    legs::map::find_leg(&t[LEGS..LEGS_END], n)
}

pub fn leg_link(t: &[u8], i: usize) -> LinkNo
    requires fit_table { FitTable t.now }
    requires i_in_bounds { i < length (view_table t.now).legs }
    ensures { result.0 ≡ (nth_leg (view_table t.now) i).link }
{
    legs::at::link_at(&t[LEGS..LEGS_END], i)
}

pub fn leg_lease(t: &[u8], i: usize) -> u32
    requires fit_table { FitTable t.now }
    requires i_in_bounds { i < length (view_table t.now).legs }
    ensures { result ≡ (nth_leg (view_table t.now) i).lease }
{
    legs::at::lease_at(&t[LEGS..LEGS_END], i)
}

// Whether it is an answer.
pub fn leg_answers(t: &[u8], i: usize) -> bool
    requires fit_table { FitTable t.now }
    requires i_in_bounds { i < length (view_table t.now).legs }
    ensures { result ≡ rule.answers (nth_leg (view_table t.now) i) }
{
    legs::at::answers_at(&t[LEGS..LEGS_END], i)
}

// The peer that it names, if it names one.
pub fn leg_peer(t: &[u8], i: usize) -> Option<NodeAddr>
    requires fit_table { FitTable t.now }
    requires i_in_bounds { i < length (view_table t.now).legs }
    ensures { option_map (λ x. x.0) result ≡ (nth_leg (view_table t.now) i).peer }
{
    legs::at::peer_at(&t[LEGS..LEGS_END], i)
}

// The answered msg1's epoch; 0 for a dial.
pub fn leg_epoch(t: &[u8], i: usize) -> u64
    requires fit_table { FitTable t.now }
    requires i_in_bounds { i < length (view_table t.now).legs }
    ensures { result ≡ (answer_of (nth_leg (view_table t.now) i)).epoch }
{
    legs::at::epoch_at(&t[LEGS..LEGS_END], i)
}

// The answered msg1's digest; zeros for a dial.
pub fn leg_digest(t: &[u8], i: usize) -> Digest
    requires fit_table { FitTable t.now }
    requires i_in_bounds { i < length (view_table t.now).legs }
    ensures { result.0 ≡ (answer_of (nth_leg (view_table t.now) i)).ephemeral }
{
    legs::at::digest_at(&t[LEGS..LEGS_END], i)
}

// Whether the answer displaced a holder.
pub fn leg_replaces(t: &[u8], i: usize) -> bool
    requires fit_table { FitTable t.now }
    requires i_in_bounds { i < length (view_table t.now).legs }
    ensures { result ≡ (answer_of (nth_leg (view_table t.now) i)).replaces }
{
    legs::at::replaces_at(&t[LEGS..LEGS_END], i)
}

// Its msg1, where it stands.
pub fn leg_msg1(t: &[u8], i: usize) -> &[u8]
    requires fit_table { FitTable t.now }
    requires i_in_bounds { i < length (view_table t.now).legs }
    ensures value { result.now ≡ (nth_leg (view_table t.now) i).msg1 }
    ensures len_bound { length result.now ≤ 128 }
{
    let at = LEGS + (i * LEG_WIDTH + MSG1_BYTES);
    let len = legs::at::msg1_len_at(&t[LEGS..LEGS_END], i);
    &t[at..at + len]
}

// Its msg2, where it stands; of length 0 for a dial.
pub fn leg_msg2(t: &[u8], i: usize) -> &[u8]
    requires fit_table { FitTable t.now }
    requires i_in_bounds { i < length (view_table t.now).legs }
    ensures value { result.now ≡ (answer_of (nth_leg (view_table t.now) i)).msg2 }
    ensures len_bound { length result.now ≤ 128 }
{
    let at = LEGS + (i * LEG_WIDTH + MSG2_BYTES);
    let len = legs::at::msg2_len_at(&t[LEGS..LEGS_END], i);
    &t[at..at + len]
}

// How many answers there are.
pub fn answering(t: &[u8]) -> usize
    requires { FitTable t.now }
    ensures { result ≡ rule.answering (view_table t.now).legs }
{
    legs::poll::answering(&t[LEGS..LEGS_END])
}

// The first leg past its deadline, which poll reaps.
pub fn find_overdue(t: &[u8], clock: u64) -> Option<usize>
    requires { FitTable t.now }
    ensures { result ≡ scan (past_deadline clock) 0 (view_table t.now).legs }
{
    legs::poll::find_overdue(&t[LEGS..LEGS_END], clock)
}

// The first leg from a place on whose resend is due.
pub fn find_resend(t: &[u8], from: usize, clock: u64) -> Option<usize>
    requires fit_table { FitTable t.now }
    requires from_in_bounds { from ≤ length (view_table t.now).legs }
    ensures { result ≡ scan (resend_due clock) from (drop from (view_table t.now).legs) }
{
    legs::poll::find_resend(&t[LEGS..LEGS_END], from, clock)
}

// When the first leg needs a poll.
pub fn next_wake(t: &[u8]) -> Option<u64>
    requires { FitTable t.now }
    ensures { result ≡ rule.next_wake (view_table t.now).legs }
{
    legs::poll::next_wake(&t[LEGS..LEGS_END])
}

// The leg on a link goes, if there is one.
pub fn drop_leg(t: &mut [u8], n: LinkNo)
    requires { FitTable t.old }
    ensures { Told t.new (settle.drop_leg n.0 (view_table t.old)) }
{
    legs::map::drop_leg(&mut t[LEGS..LEGS_END], n);
}

// A resend went out: it is counted, and the next is due after twice the interval.
pub fn resent(t: &mut [u8], i: usize, clock: u64, c: Params)
    requires fit_table { FitTable t.old }
    requires i_in_bounds { i < length (view_table t.old).legs }
    ensures { Told t.new (settle.with_legs (set (view_table t.old).legs i (rule.resent (view_params c) clock (nth_leg (view_table t.old) i))) (view_table t.old)) }
{
    legs::change::resent_at(&mut t[LEGS..LEGS_END], i, clock, c);
}

// The answer was sent.
pub fn mark_sent(t: &mut [u8], i: usize)
    requires fit_table { FitTable t.old }
    requires i_in_bounds { i < length (view_table t.old).legs }
    ensures { Told t.new (settle.with_legs (set (view_table t.old).legs i (rule.mark_sent (nth_leg (view_table t.old) i))) (view_table t.old)) }
{
    legs::change::mark_sent(&mut t[LEGS..LEGS_END], i);
}

// The answer could not be sent: it replaces nothing.
pub fn mark_unsent(t: &mut [u8], i: usize)
    requires fit_table { FitTable t.old }
    requires i_in_bounds { i < length (view_table t.old).legs }
    ensures { Told t.new (settle.with_legs (set (view_table t.old).legs i (rule.mark_unsent (nth_leg (view_table t.old) i))) (view_table t.old)) }
{
    legs::change::mark_unsent(&mut t[LEGS..LEGS_END], i);
}
