// Reads cases from standard input, each the count of its bytes in 3 bytes and then the bytes, and writes what is read in each: the call, a line, and the new, a line.
#![tactic(auto)]

mod kinds;
mod messages;
mod news;
mod show;

ghost use Rattle.std.specs.Prelude.{◌≤◌, length};

use crate::kinds::call_line;
use crate::news::new_line;
use lib_bytes::read::get_be;

// The count of a case's bytes; a record has at most its length bytes and what they can say.
const CASE_HEAD: usize = 3;

const RECORD_LEN: usize = 65537;

fn case_lines(s: &[u8]) {
    call_line(s);
    new_line(s);
}

// The next n bytes are a case.
fn case_of(buf: &mut [u8], n: usize) -> bool
    requires { n ≤ length buf.old }
{
    let got = io::read_full(0, &mut buf[..n]);
    if got < n {
        return false;
    }
    case_lines(&buf[..n]);
    true
}

// One case, in a buffer for the longest.
fn sized_case(n: usize) -> bool
    requires { n ≤ 65537 }
{
    let mut buf = [0u8; RECORD_LEN];
    case_of(&mut buf, n)
}

// Whether there was one more.
fn one_case() -> bool {
    let mut head = [0u8; CASE_HEAD];
    let got = io::read_full(0, &mut head);
    if got < CASE_HEAD {
        return false;
    }
    let n = get_be(&head, 0, CASE_HEAD) as usize;
    if RECORD_LEN < n {
        return false;
    }
    sized_case(n)
}

// A proved loop has to end, so it counts its turns, to a number that no run reaches.
fn main() {
    for _ in 0..u64::MAX {
        if !one_case() {
            return;
        }
    }
}
