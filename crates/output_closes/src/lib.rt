// The outputs with a list of pairs.
#![tactic(auto)]

ghost use Rattle.std.specs.Prelude.{[], ◌∷◌, ◌+◌, ◌≤◌, ◌<◌, length};
ghost use Rattle.rules.specs.Base.{option};
ghost use Rattle.rules.specs.Data.{Output, Retire};
ghost use Rattle.rules.specs.Output.{pairs_bytes, output_record};
ghost use Rattle.lib_laws.specs.Splice.{Wrote};
ghost use Rattle.node_addr.specs.View.{view_pair};
ghost use Rattle.links.specs.View.{view_closes};
ghost use Rattle.output_closes.specs.Lists.{close_header};

use lib_bytes::layout::U64;
use lib_bytes::write::put_be;
use links::record::Closes;
use node_addr::layout::FRAME_LEN;
use node_addr::{LinkNo, Pair};
use output_code::kind::Kind;
use output_field::layout::{LINK_LIST_HEAD, LINK_LIST_LEN, LIST_LEN, RELEASE_ONE_LEN};
use output_field::{put_kind, put_pair};

// The pairs one after another, without their count.
pub fn put_pairs(out: &mut [u8], at: usize, c: &Closes) -> usize
    requires { at + length (pairs_bytes (view_closes c.now)) ≤ length out.old }
    ensures { Wrote out.old at (length (pairs_bytes (view_closes c.now))) (pairs_bytes (view_closes c.now)) out.new result }
{
    let mut e = at;
    for p in c.as_slice() {
        e = put_pair(out, e, *p);
    }
    e
}

// 8: the pairs, and then the header before them.
pub fn put_retire(out: &mut [u8], at: usize, link: LinkNo, c: &Closes) -> usize
    requires { at + (13 + length (pairs_bytes (view_closes c.now))) ≤ length out.old }
    ensures { Wrote out.old at (13 + length (pairs_bytes (view_closes c.now))) (output_record (Retire link.0 (view_closes c.now))) out.new result }
{
    let n = c.len();
    let e = put_pairs(out, at + LINK_LIST_HEAD, c);
    let a = put_kind(out, at, e - at - FRAME_LEN, Kind::Retire);
    let b = put_be(out, a, link.0, U64);
    put_be(out, b, n as u64, 1);
    e
}

fn put_release_none(out: &mut [u8], at: usize, link: LinkNo) -> usize
    requires { at + 13 ≤ length out.old }
    ensures { Wrote out.old at 13 (output_record (Output.Release link.0 [])) out.new result }
{
    let a = put_kind(out, at, LINK_LIST_LEN, Kind::Release);
    let b = put_be(out, a, link.0, U64);
    put_be(out, b, 0, 1)
}

fn put_release_one(out: &mut [u8], at: usize, link: LinkNo, p: Pair) -> usize
    requires { at + (18 + p.addr.len) ≤ length out.old }
    ensures { Wrote out.old at (18 + p.addr.len) (output_record (Output.Release link.0 (view_pair p ∷ []))) out.new result }
{
    let a = put_kind(out, at, RELEASE_ONE_LEN + p.addr.len, Kind::Release);
    let b = put_be(out, a, link.0, U64);
    let c = put_be(out, b, 1, 1);
    put_pair(out, c, p)
}

// 9, with the pair or with none.
pub fn put_release(out: &mut [u8], at: usize, link: LinkNo, closed: Option<Pair>) -> usize
    requires { at + option closed 13 (λ p. 18 + p.addr.len) ≤ length out.old }
    ensures { Wrote out.old at (option closed 13 (λ p. 18 + p.addr.len))
        (output_record (Output.Release link.0 (option closed [] (λ p. view_pair p ∷ []))))
        out.new result }
{
    match closed {
        Some(p) => put_release_one(out, at, link, p),
        None => put_release_none(out, at, link),
    }
}

// 10: the header over the 5 bytes before its pairs, which are `count` in n bytes.
pub fn put_close_header(out: &mut [u8], at: usize, count: usize, n: usize) -> usize
    requires count_bound { count < 256 }
    requires n_bound { n + 3 < 65536 }
    requires at_in_bounds { at + 5 ≤ length out.old }
    ensures { Wrote out.old at 5 (close_header count n) out.new result }
{
    let a = put_kind(out, at, LIST_LEN + n, Kind::Close);
    put_be(out, a, count as u64, 1)
}
