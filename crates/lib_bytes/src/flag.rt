// Flags at a place, a byte, 1 or 0; and numbers behind one that says whether they are there.
ghost use Rattle.std.specs.Prelude.{◌≡◌, [], ◌∷◌, ◌+◌, ◌≤◌, ◌<◌, length, take, drop};
ghost use Rattle.rules.specs.Base.{one};
ghost use Rattle.lib_laws.specs.Splice.{Wrote};
ghost use Rattle.lib_laws.specs.Cell.{flag_of, option_num, number_cells};

use crate::layout::U64;
use crate::read::get_8;
use crate::write::{put_be, put_byte};

pub fn get_flag(s: &[u8], at: usize) -> bool
    requires { at < length s.now }
    ensures { result ≡ flag_of (take 1 (drop at s.now)) }
{
    s[at] == 1
}

pub fn put_flag(s: &mut [u8], at: usize, b: bool) -> usize
    requires { at < length s.old }
    ensures { Wrote s.old at 1 (one b ∷ []) s.new result }
{
    put_byte(s, at, u8::from(b))
}

// A number of eight bytes behind a flag, if there is one.
pub fn get_option(s: &[u8], at: usize) -> Option<u64>
    requires { at + 9 ≤ length s.now }
    ensures { result ≡ option_num (take 1 (drop at s.now)) (take 8 (drop (at + 1) s.now)) }
{
    if get_flag(s, at) {
        Some(get_8(s, at + 1))
    } else {
        None
    }
}

// Zeros where there is none.
pub fn put_option(s: &mut [u8], at: usize, o: Option<u64>) -> usize
    requires { at + 9 ≤ length s.old }
    ensures { Wrote s.old at 9 (number_cells o) s.new result }
{
    let a = put_flag(s, at, o.is_some());
    put_be(s, a, o.unwrap_or(0), U64)
}
