// The steps of links. A pair is told by its byte.
ghost use Rattle.std.specs.Prelude.{◌≡◌};
ghost use Rattle.links.specs.View.{FitLinks, link_count};

use links::close::{release, retire};
use links::read::{find_link, in_use, indexed_at, link_count, paths_full, uses_at};
use links::record::{Dir, Proven};
use links::write::{hold_link, open_link, set_path};
use node_addr::LinkNo;
use test_script::show::{number, place, truth};
use test_script::values::{node, pair};

// How many there are.
fn count(s: &[u8]) -> usize
    requires { FitLinks s.now }
    ensures { result ≡ link_count s.now }
{
    link_count(s)
}

// A link of this node's dial, where there is room.
fn open(s: &mut [u8], n: u64, b: u64)
    requires { FitLinks s.old }
    ensures { FitLinks s.new }
{
    let p = pair(7, b);
    if count(s) < 32 {
        open_link(s, LinkNo(n), p, Dir::Outbound);
    }
}

// An acked path, where it would be no fifth.
fn path(s: &mut [u8], n: u64, b: u64)
    requires { FitLinks s.old }
    ensures { FitLinks s.new }
{
    let p = pair(7, b);
    let full = paths_full(s, LinkNo(n), p);
    truth(full);
    if !full {
        set_path(s, LinkNo(n), p, Proven::Acked);
    }
}

fn released(s: &mut [u8], n: u64, b: u64, keep: bool)
    requires { FitLinks s.old }
    ensures { FitLinks s.new }
{
    let p = pair(7, b);
    truth(release(s, LinkNo(n), p, keep));
}

fn retired(s: &mut [u8], n: u64)
    requires { FitLinks s.old }
    ensures { FitLinks s.new }
{
    let closes = retire(s, LinkNo(n));
    number(closes.len() as u64);
}

pub fn change_links(s: &mut [u8], word: u8, a: u64, b: u64, c: u64)
    requires { FitLinks s.old }
    ensures { FitLinks s.new }
{
    match word {
        b'o' => open(s, a, b),
        b'p' => path(s, a, b),
        b'h' => hold_link(s, LinkNo(a), node(b)),
        b'r' => released(s, a, b, c != 0),
        b'd' => retired(s, a),
        _ => {}
    }
}

// Whether the link at a place uses the pair, and whether the index has it there.
fn at(s: &[u8], i: usize, b: u64)
    requires { FitLinks s.now }
{
    let p = pair(7, b);
    if i < count(s) {
        truth(uses_at(s, i, p));
        truth(indexed_at(s, i, p));
    }
}

fn used(s: &[u8], b: u64)
    requires { FitLinks s.now }
{
    let p = pair(7, b);
    truth(in_use(s, p));
}

pub fn show_links(s: &[u8], word: u8, a: u64, b: u64)
    requires { FitLinks s.now }
{
    match word {
        b'c' => number(count(s) as u64),
        b'f' => place(find_link(s, LinkNo(a))),
        b'u' => used(s, a),
        b'a' => at(s, a as usize, b),
        _ => {}
    }
}
