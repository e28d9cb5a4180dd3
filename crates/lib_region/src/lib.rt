// A map in a lent region: cap entries of w bytes in a row, and then a byte that says how many there are.
#![tactic(auto)]

ghost use Rattle.std.specs.Prelude.{◌≡◌, ◌+◌, ◌*◌, ◌≤◌, ◌<◌, length, take, drop, get_or};
ghost use Rattle.lib_laws.specs.Splice.{splice};
ghost use Rattle.lib_laws.specs.Store.{Closes, Opens, erased, gapped};

use lib_bytes::write::clear;

// n bytes from `from` to `to`: the two runs may overlap.
#[tactic(auto, using(lib_laws::specs::Numbers::copied_within))]
fn move_run(s: &mut [u8], from: usize, to: usize, n: usize)
    requires from_in_bounds { from + n ≤ length s.old }
    requires to_in_bounds { to + n ≤ length s.old }
    ensures { s.new ≡ splice s.old to (take n (drop from s.old)) }
{
    s.copy_within(from..from + n, to);
}

// n bytes from `from` down to `to`.
pub fn move_down(s: &mut [u8], from: usize, to: usize, n: usize)
    requires to_le_from { to ≤ from }
    requires n_in_bounds { from + n ≤ length s.old }
    ensures { s.new ≡ splice s.old to (take n (drop from s.old)) }
{
    move_run(s, from, to, n);
}

// n bytes from `from` up to `to`.
pub fn move_up(s: &mut [u8], from: usize, to: usize, n: usize)
    requires from_le_to { from ≤ to }
    requires n_in_bounds { to + n ≤ length s.old }
    ensures { s.new ≡ splice s.old to (take n (drop from s.old)) }
{
    move_run(s, from, to, n);
}

// How many entries there are; `end` is the place after the last of the cap entries.
pub fn count(s: &[u8], end: usize) -> usize
    requires { end < length s.now }
    ensures { result ≡ get_or s.now end 0 }
{
    s[end] as usize
}

// The entry at a place is taken out, and those behind it move down.
pub fn remove_chunk(s: &mut [u8], w: usize, cap: usize, at: usize)
    requires { Closes w cap at s.old }
    ensures { s.new ≡ erased w cap at s.old }
{
    let end = cap * w;
    let last = s[end] as usize - 1;
    let n = (last - at) * w;
    let from = (at + 1) * w;
    let to = at * w;
    let gone = last * w;
    move_down(s, from, to, n);
    clear(s, gone, w);
    s[end] = last as u8;
}

// A gap for an entry at a place: those from there on move up.
pub fn open_chunk(s: &mut [u8], w: usize, cap: usize, at: usize)
    requires { Opens w cap at s.old }
    ensures { s.new ≡ gapped w cap at s.old }
{
    let end = cap * w;
    let len = s[end] as usize;
    let n = (len - at) * w;
    let from = at * w;
    let to = (at + 1) * w;
    move_up(s, from, to, n);
    s[end] = (len + 1) as u8;
}
