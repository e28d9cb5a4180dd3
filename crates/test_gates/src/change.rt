// What happens to a peer, where there is room for its memory.
ghost use Rattle.test_gates.specs.Kept.{Kept};

use gates::calls::{ended, heard, promoted, stamp};
use gates::map::memory_count;
use node_addr::Digest;
use test_script::values::{digest, node, settings};

// A msg1 with a digest promoted it unheard.
fn promote(s: &mut [u8], peer: u64, d: u64, clock: u64)
    requires { Kept s.old }
    ensures { Kept s.new }
{
    if memory_count(s) < 32 {
        promoted(s, node(peer), digest(d), clock, settings());
    }
}

// A session ended unheard, of the msg1 of that digest if it came from one.
fn end(s: &mut [u8], peer: u64, epoch: u64, setup: Option<Digest>, clock: u64)
    requires { Kept s.old }
    ensures { Kept s.new }
{
    if memory_count(s) < 32 {
        ended(s, node(peer), epoch, setup, clock, settings());
    }
}

// A heard peering was given up.
fn give_up(s: &mut [u8], peer: u64, clock: u64)
    requires { Kept s.old }
    ensures { Kept s.new }
{
    if memory_count(s) < 32 {
        stamp(s, node(peer), clock);
    }
}

// A frame of it authenticated.
fn hear(s: &mut [u8], peer: u64)
    requires { Kept s.old }
    ensures { Kept s.new }
{
    heard(s, node(peer));
}

pub fn change(s: &mut [u8], word: u8, a: u64, b: u64, c: u64, d: u64, e: u64)
    requires { Kept s.old }
    ensures { Kept s.new }
{
    match word {
        b'p' => promote(s, a, b, c),
        b'e' => end(s, a, b, (c != 0).then(|| digest(d)), e),
        b's' => give_up(s, a, b),
        b'h' => hear(s, a),
        _ => {}
    }
}
