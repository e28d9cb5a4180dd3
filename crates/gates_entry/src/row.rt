// A row: room for some elements of one width, and then how many there are. Written and read for each type of element.
ghost use Rattle.std.specs.Prelude.{◌≡◌, ℕ, ◌+◌, ◌*◌, ◌≤◌, length, take, drop};
ghost use Rattle.rules.specs.Base.{Bytes};
ghost use Rattle.lib_laws.specs.Splice.{Wrote};
ghost use Rattle.lib_laws.specs.Store.{Store, entries};
ghost use Rattle.gates_types.specs.View.{view_digest, FitReplay, FitDigest, Few};
ghost use Rattle.gates_entry.specs.Rows.{AnyBytes, row_bytes};
ghost use Rattle.gates_entry.specs.Entry.{digest_in, replay_bytes, replay_in};
ghost use Rattle.gates_entry.specs.Layout.{replay_width};
ghost use Rattle.node_addr.specs.Layout.{digest_len};

use crate::layout::{REPLAY_WIDTH, SEEN};
use gates_types::Replay;
use lib_bytes::layout::U64;
use lib_bytes::read::get_8;
use lib_bytes::write::{clear, put_be, put_byte};
use lib_list::ShortList;
use lib_region::count;
use node_addr::Digest;
use node_addr::layout::DIGEST_LEN;
use node_addr::place::{load_fixed, put_fixed};

// An element of a row: how many bytes it has, which, what they are read as, and what holds of that. A writer answers the place after what it wrote.
pub trait Element: Copy + Default {
    const WIDTH: usize;

    ghost WIDTH: { ℕ };

    ghost bytes: { Self → Bytes };

    ghost of_bytes: { Bytes → Self };

    ghost Fit: { Self → Type 0 };

    fn put(s: &mut [u8], at: usize, x: Self) -> usize
        requires { at + WIDTH ≤ length s.old }
        ensures { Wrote s.old at WIDTH (bytes x) s.new result };

    fn load(s: &[u8], at: usize) -> Self
        requires { at + WIDTH ≤ length s.now }
        ensures fit { Fit result }
        ensures value { result ≡ of_bytes (take WIDTH (drop at s.now)) };
}

// A replay, 40 bytes.
impl Element for Replay {
    const WIDTH: usize = REPLAY_WIDTH;

    ghost WIDTH = { replay_width };

    ghost bytes = { replay_bytes };

    ghost of_bytes = { replay_in };

    ghost Fit = { FitReplay };

    fn put(s: &mut [u8], at: usize, x: Replay) -> usize {
        let a = put_fixed(s, at, x.digest);
        put_be(s, a, x.seen, U64)
    }

    fn load(s: &[u8], at: usize) -> Replay {
        Replay {
            digest: load_fixed(s, at),
            seen: get_8(s, at + SEEN),
        }
    }
}

// A digest, 32 bytes.
impl Element for Digest {
    const WIDTH: usize = DIGEST_LEN;

    ghost WIDTH = { digest_len };

    ghost bytes = { view_digest };

    ghost of_bytes = { digest_in };

    ghost Fit = { FitDigest };

    fn put(s: &mut [u8], at: usize, x: Digest) -> usize {
        put_fixed(s, at, x)
    }

    fn load(s: &[u8], at: usize) -> Digest {
        load_fixed(s, at)
    }
}

// The elements, zeros past the last, and then how many there are.
pub fn put_row<T: Element, const CAP: usize>(
    s: &mut [u8],
    at: usize,
    v: &ShortList<T, CAP>,
) -> usize
    requires cap_bound { CAP ≤ 8 }
    requires row_in_bounds { at + (CAP * T.WIDTH + 1) ≤ length s.old }
    ensures { Wrote s.old at (CAP * T.WIDTH + 1) (row_bytes T.bytes T.WIDTH CAP v.now.items) s.new result }
{
    let n = v.len();
    let mut a = at;
    for e in v.iter() {
        a = T::put(s, a, *e);
    }
    let b = clear(s, a, (CAP - n) * T::WIDTH);
    put_byte(s, b, n as u8)
}

// The elements of a row that stands at a place.
pub fn load_row<T: Element, const CAP: usize>(s: &[u8], at: usize) -> ShortList<T, CAP>
    requires cap_bound { CAP ≤ 8 }
    requires row_in_bounds { at + (CAP * T.WIDTH + 1) ≤ length s.now }
    requires store { Store AnyBytes T.WIDTH CAP (take (CAP * T.WIDTH + 1) (drop at s.now)) }
    ensures fit { Few T.Fit result }
    ensures value { result.items ≡ entries T.of_bytes T.WIDTH CAP (take (CAP * T.WIDTH + 1) (drop at s.now)) }
{
    let mut out = ShortList::new();
    for i in 0..count(s, at + CAP * T::WIDTH) {
        out.push(T::load(s, at + i * T::WIDTH));
    }
    out
}
