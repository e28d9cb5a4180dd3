// Runs of bytes compared where they stand, in lent memory, where no value is that could derive it: whether they are the same, and their order.
ghost use Rattle.std.specs.Prelude.{◌≡◌, ◌+◌, ◌≤◌, length, take, drop};
ghost use Rattle.rules.specs.Base.{same};
ghost use Rattle.rules.specs.Std.{before};

use crate::read::get_8;

// Runs of this length and less are compared word by word here, longer ones as slices are.
const SHORT: usize = 64;

// Whether the eight bytes at two places are the same.
fn eq_8(s: &[u8], at: usize, t: &[u8], from: usize) -> bool
    requires at_in_bounds { at + 8 ≤ length s.now }
    requires from_in_bounds { from + 8 ≤ length t.now }
    ensures { result ≡ same (take 8 (drop at s.now)) (take 8 (drop from t.now)) }
{
    get_8(s, at) == get_8(t, from)
}

// Whether n bytes of two slices are the same. A run of some words is compared by words, up to the first that differs, and the last eight bytes: as slices it would be a call for each run.
pub fn eq_bytes(s: &[u8], at: usize, t: &[u8], from: usize, n: usize) -> bool
    requires n_in_bounds { at + n ≤ length s.now }
    requires n_in_bounds_2 { from + n ≤ length t.now }
    ensures { result ≡ same (take n (drop at s.now)) (take n (drop from t.now)) }
{
    if n < 8 || SHORT < n {
        return s[at..at + n] == t[from..from + n];
    }
    for k in 0..(n - 1) / 8 {
        if !eq_8(s, at + k * 8, t, from + k * 8) {
            return false;
        }
    }
    let last = n - 8;
    eq_8(s, at + last, t, from + last)
}

// Whether 16 bytes of a slice come before 16 bytes of another: the first that differ decide.
pub fn lt_bytes(s: &[u8], at: usize, t: &[u8], from: usize) -> bool
    requires at_in_bounds { at + 16 ≤ length s.now }
    requires from_in_bounds { from + 16 ≤ length t.now }
    ensures { result ≡ before (take 16 (drop at s.now)) (take 16 (drop from t.now)) }
{
    let a = get_8(s, at);
    let b = get_8(t, from);
    if a != b {
        return a < b;
    }
    let c = get_8(s, at + 8);
    let d = get_8(t, from + 8);
    c < d
}
