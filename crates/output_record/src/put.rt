// The outputs of one record each, but those with a list.
ghost use Rattle.std.specs.Prelude.{◌+◌, ◌≤◌, length, take, drop, option_map};
ghost use Rattle.rules.specs.Base.{option};
ghost use Rattle.rules.specs.Data.{Output, Opened, Resend, Rekey, Install, Reset, Free, Retry, Reject};
ghost use Rattle.rules.specs.Output.{output_record, done_record};
ghost use Rattle.lib_laws.specs.Splice.{Wrote};
ghost use Rattle.node_addr.specs.View.{view_pair};
ghost use Rattle.gates_types.specs.View.{source_of, denial_of};
ghost use Rattle.output_code.specs.Codes.{why_of, build_of, transition_of};

use gates_types::{Denial, Source};
use lib_bytes::layout::{U32, U64};
use lib_bytes::write::{put_be, put_byte};
use node_addr::place::put_fixed;
use node_addr::{LinkNo, NodeAddr, Pair};
use output_code::kind::Kind;
use output_code::{Build, Transition, Why, denial_code};
use output_field::layout::{
    ANSWER_LEN, DONE_LEN, FREE_LEN, INSTALL_LEN, OPENED_LEN, REJECT_LEN, REJECT_NOBODY_LEN,
    REKEY_LEN, REMOVE_LEN, RESEND_LEN, RESET_LEN, RETRY_LEN, WAKE_LEN, WAKE_NONE_LEN,
};
use output_field::{put_flag, put_kind, put_message, put_pair};

// 0, the number of the call, as its byte: 0, which no Refusal is, for none (settle::refusal_number has the others).
pub fn put_done(out: &mut [u8], at: usize, number: u8) -> usize
    requires { at + 5 ≤ length out.old }
    ensures { Wrote out.old at 5 (done_record number) out.new result }
{
    let a = put_kind(out, at, DONE_LEN, Kind::Done);
    put_byte(out, a, number)
}

// 1
pub fn put_opened(out: &mut [u8], at: usize, link: LinkNo) -> usize
    requires { at + 12 ≤ length out.old }
    ensures { Wrote out.old at 12 (output_record (Opened link.0)) out.new result }
{
    let a = put_kind(out, at, OPENED_LEN, Kind::Opened);
    put_be(out, a, link.0, U64)
}

// 2
pub fn put_answer(out: &mut [u8], at: usize, link: LinkNo, stored: bool, msg2: &[u8]) -> usize
    requires len_bound { length msg2.now ≤ 128 }
    requires in_bounds { at + (15 + length msg2.now) ≤ length out.old }
    ensures { Wrote out.old at (15 + length msg2.now) (output_record (Output.Answer link.0 stored msg2.now)) out.new result }
{
    let a = put_kind(out, at, ANSWER_LEN + msg2.len(), Kind::Answer);
    let b = put_be(out, a, link.0, U64);
    let c = put_flag(out, b, stored);
    put_message(out, c, msg2)
}

// 3
pub fn put_resend(out: &mut [u8], at: usize, link: LinkNo, msg1: &[u8]) -> usize
    requires len_bound { length msg1.now ≤ 128 }
    requires in_bounds { at + (14 + length msg1.now) ≤ length out.old }
    ensures { Wrote out.old at (14 + length msg1.now) (output_record (Resend link.0 msg1.now)) out.new result }
{
    let a = put_kind(out, at, RESEND_LEN + msg1.len(), Kind::Resend);
    let b = put_be(out, a, link.0, U64);
    put_message(out, b, msg1)
}

// 4
pub fn put_rekey(out: &mut [u8], at: usize, peer: NodeAddr, on_link: bool, reachable: bool) -> usize
    requires { at + 22 ≤ length out.old }
    ensures { Wrote out.old at 22 (output_record (Rekey peer.0 on_link reachable)) out.new result }
{
    let a = put_kind(out, at, REKEY_LEN, Kind::Rekey);
    let b = put_fixed(out, a, peer);
    let c = put_flag(out, b, on_link);
    put_flag(out, c, reachable)
}

// 5
pub fn put_install(
    out: &mut [u8],
    at: usize,
    peer: NodeAddr,
    link: LinkNo,
    pair: Pair,
    build: Build,
    initiator: bool,
    lease: u32,
) -> usize
    requires { at + (39 + pair.addr.len) ≤ length out.old }
    ensures { Wrote out.old at (39 + pair.addr.len)
        (output_record (Install (record { peer = peer.0; link = link.0; pair = view_pair pair; build = build_of build; initiator = initiator; lease = lease })))
        out.new result }
{
    let a = put_kind(out, at, INSTALL_LEN + pair.addr.len, Kind::Install);
    let x = put_fixed(out, a, peer);
    let y = put_be(out, x, link.0, U64);
    let z = put_pair(out, y, pair);
    let b = put_byte(out, z, build as u8);
    let f = put_flag(out, b, initiator);
    put_be(out, f, lease as u64, U32)
}

// 6
pub fn put_reset(out: &mut [u8], at: usize, peer: NodeAddr, t: Transition) -> usize
    requires { at + 21 ≤ length out.old }
    ensures { Wrote out.old at 21 (output_record (Reset peer.0 (transition_of t))) out.new result }
{
    let a = put_kind(out, at, RESET_LEN, Kind::Reset);
    let b = put_fixed(out, a, peer);
    put_byte(out, b, t as u8)
}

// 7
pub fn put_remove(out: &mut [u8], at: usize, peer: NodeAddr, w: Why) -> usize
    requires { at + 21 ≤ length out.old }
    ensures { Wrote out.old at 21 (output_record (Output.Remove peer.0 (why_of w))) out.new result }
{
    let a = put_kind(out, at, REMOVE_LEN, Kind::Remove);
    let b = put_fixed(out, a, peer);
    put_byte(out, b, w as u8)
}

// 11
pub fn put_free(out: &mut [u8], at: usize, lease: u32) -> usize
    requires { at + 8 ≤ length out.old }
    ensures { Wrote out.old at 8 (output_record (Free lease)) out.new result }
{
    let a = put_kind(out, at, FREE_LEN, Kind::Free);
    put_be(out, a, lease as u64, U32)
}

// 12
pub fn put_retry(out: &mut [u8], at: usize, peer: NodeAddr) -> usize
    requires { at + 20 ≤ length out.old }
    ensures { Wrote out.old at 20 (output_record (Retry peer.0)) out.new result }
{
    let a = put_kind(out, at, RETRY_LEN, Kind::Retry);
    put_fixed(out, a, peer)
}

fn put_reject_asked(out: &mut [u8], at: usize, peer: NodeAddr, source: Source, why: Denial) -> usize
    requires { at + 23 ≤ length out.old }
    ensures { Wrote out.old at 23 (output_record (Reject (Some (peer.0, source_of source)) (denial_of why))) out.new result }
{
    let a = put_kind(out, at, REJECT_LEN, Kind::Reject);
    let b = put_byte(out, a, 1);
    let c = put_fixed(out, b, peer);
    let e = put_byte(out, c, source as u8);
    put_byte(out, e, denial_code(why))
}

fn put_reject_unasked(out: &mut [u8], at: usize, why: Denial) -> usize
    requires { at + 6 ≤ length out.old }
    ensures { Wrote out.old at 6 (output_record (Reject None (denial_of why))) out.new result }
{
    let a = put_kind(out, at, REJECT_NOBODY_LEN, Kind::Reject);
    let b = put_byte(out, a, 0);
    put_byte(out, b, denial_code(why))
}

// 13, with the peer and what asked, or without.
pub fn put_reject(
    out: &mut [u8],
    at: usize,
    asked: Option<(NodeAddr, Source)>,
    why: Denial,
) -> usize
    requires { at + option asked 6 (λ a. 23) ≤ length out.old }
    ensures { Wrote out.old at (option asked 6 (λ a. 23))
        (output_record (Reject (option_map (λ a. (a.0.0, source_of a.1)) asked) (denial_of why)))
        out.new result }
{
    match asked {
        Some((peer, source)) => put_reject_asked(out, at, peer, source, why),
        None => put_reject_unasked(out, at, why),
    }
}

fn put_wake_at(out: &mut [u8], at: usize, time: u64) -> usize
    requires { at + 13 ≤ length out.old }
    ensures { Wrote out.old at 13 (output_record (Output.Wake (Some time))) out.new result }
{
    let a = put_kind(out, at, WAKE_LEN, Kind::Wake);
    let b = put_byte(out, a, 1);
    put_be(out, b, time, U64)
}

fn put_wake_never(out: &mut [u8], at: usize) -> usize
    requires { at + 5 ≤ length out.old }
    ensures { Wrote out.old at 5 (output_record (Output.Wake None)) out.new result }
{
    let a = put_kind(out, at, WAKE_NONE_LEN, Kind::Wake);
    put_byte(out, a, 0)
}

// 14, with a time or without.
pub fn put_wake(out: &mut [u8], at: usize, time: Option<u64>) -> usize
    requires { at + option time 5 (λ t. 13) ≤ length out.old }
    ensures { Wrote out.old at (option time 5 (λ t. 13)) (output_record (Output.Wake time)) out.new result }
{
    match time {
        Some(t) => put_wake_at(out, at, t),
        None => put_wake_never(out, at),
    }
}
