// Up to N bytes, which are their own value: an address, a message.
ghost use Rattle.std.specs.Prelude.{◌≡◌, [], ◌+◌, ◌-◌, ◌≤◌, ◌<◌, length, take, drop, replicate};
ghost use Rattle.rules.specs.Base.{same};
ghost use Rattle.lib_laws.specs.Splice.{Wrote};
ghost use Rattle.lib_laws.specs.Cell.{text_of, Text};

use lib_bytes::compare::eq_bytes;
use lib_bytes::read::{get_byte, take, take_first};
use lib_bytes::write::{put, put_byte, put_first};

// Zeros past `len`.
#[derive(Clone, Copy, PartialEq, Eq)]
pub struct Padded<const N: usize> {
    pub len: usize,
    pub bytes: [u8; N],
    pub ghost small: { len ≤ N },
    pub ghost size: { length bytes ≡ N },
    pub ghost rest: { drop len bytes ≡ replicate (N - len) 0 },
}

impl<const N: usize> Padded<N> {
    ghost use Rattle.node_addr.specs.Padded.{view, cell};

    pub fn empty() -> Self
        ensures { view result ≡ [] }
    {
        Padded {
            len: 0,
            bytes: [0; N],
        }
    }

    // n bytes of a slice.
    pub fn load(s: &[u8], at: usize, n: usize) -> Self
        requires n_bound { n ≤ N }
        requires n_in_bounds { at + n ≤ length s.now }
        ensures { view result ≡ take n (drop at s.now) }
    {
        Padded {
            len: n,
            bytes: take_first(s, at, n),
        }
    }

    // Those in use.
    pub fn put(&self, s: &mut [u8], at: usize) -> usize
        requires { at + self.now.len ≤ length s.old }
        ensures { Wrote s.old at self.now.len (view self.now) s.new result }
    {
        put_first(s, at, self.bytes, self.len)
    }

    // From a cell: their length in a byte, then N bytes.
    pub fn load_cell(s: &[u8], at: usize) -> Self
        requires in_bounds { at + 1 + N ≤ length s.now }
        requires is_text { Text N (take 1 (drop at s.now)) (take N (drop (at + 1) s.now)) }
        ensures { view result ≡ text_of (take 1 (drop at s.now)) (take N (drop (at + 1) s.now)) }
    {
        Padded {
            len: get_byte(s, at) as usize,
            bytes: take(s, at + 1),
        }
    }

    pub fn put_cell(&self, s: &mut [u8], at: usize) -> usize
        requires len_bound { N < 256 }
        requires in_bounds { at + (1 + N) ≤ length s.old }
        ensures { Wrote s.old at (1 + N) (cell self.now) s.new result }
    {
        let a = put_byte(s, at, self.len as u8);
        put(s, a, self.bytes)
    }

    // Whether a cell holds the same bytes: by slices, which are compared in words; arrays are, byte by byte.
    pub fn is_cell(&self, s: &[u8], at: usize) -> bool
        requires in_bounds { at + 1 + N ≤ length s.now }
        requires is_text { Text N (take 1 (drop at s.now)) (take N (drop (at + 1) s.now)) }
        ensures { result ≡ same (view self.now) (text_of (take 1 (drop at s.now)) (take N (drop (at + 1) s.now))) }
    {
        if get_byte(s, at) as usize != self.len {
            return false;
        }
        eq_bytes(&self.bytes, 0, s, at + 1, N)
    }
}
