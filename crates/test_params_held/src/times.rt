// Spans and deadlines.
use params::time::{age, backoff, deadline, factor, resend_at, younger};
use test_script::show::{number, truth};

// The exponent that a number tells: its last 32 bits.
fn half(v: u64) -> u32 {
    (v % 4294967296) as u32
}

pub fn show_times(word: u8, a: u64, b: u64, c: u64) {
    match word {
        b'f' => number(u64::from(factor(half(a)))),
        b'b' => number(backoff(half(a), b, c)),
        b'r' => number(resend_at(a, half(b), c)),
        b'd' => number(deadline(a, b)),
        b'a' => number(age(a, b)),
        b'y' => truth(younger(a, b, c)),
        _ => {}
    }
}
