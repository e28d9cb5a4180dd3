// The steps of held. A pair is told by its byte.
ghost use Rattle.std.specs.Prelude.{◌<◌};
ghost use Rattle.held.specs.View.{FitHeld, held_count};

use held::at::{current_is, epoch_at, heard_at, last_at};
use held::heard::hear_at;
use held::map::{drop_held, find_held, held_count, insert_held};
use held::record::Held;
use held::restarted::set_epoch;
use node_addr::LinkNo;
use test_script::show::{number, place, truth};
use test_script::values::{byte, node, pair};

// A peer that was dialed, not heard yet.
fn unheard(peer: u64, link: u64) -> Held {
    Held {
        peer: node(peer),
        link: LinkNo(link),
        epoch: 1,
        installed: 0,
        heard: false,
        last: None,
        setup: None,
        current: pair(7, 65),
    }
}

// A peer, where there is room.
fn insert(s: &mut [u8], h: Held)
    requires { FitHeld s.old }
    ensures { FitHeld s.new }
{
    if held_count(s) < 32 {
        insert_held(s, h);
    }
}

// A frame of the peer at a place, from a pair that a record spells; whether it was the current one.
fn hear(s: &mut [u8], i: usize, clock: u64, b: u8)
    requires fit_held { FitHeld s.old }
    requires i_bound { i < held_count s.old }
    ensures { FitHeld s.new }
{
    let rec = [0u8, 0, 0, 7, 1, b];
    truth(hear_at(s, i, clock, &rec, 0));
}

fn hear_peer(s: &mut [u8], peer: u64, clock: u64, b: u64)
    requires { FitHeld s.old }
    ensures { FitHeld s.new }
{
    if let Some(i) = find_held(s, node(peer)) {
        hear(s, i, clock, byte(b));
    }
}

fn restart_peer(s: &mut [u8], peer: u64, epoch: u64)
    requires { FitHeld s.old }
    ensures { FitHeld s.new }
{
    if let Some(i) = find_held(s, node(peer)) {
        set_epoch(s, i, epoch);
    }
}

pub fn change_held(s: &mut [u8], word: u8, a: u64, b: u64, c: u64)
    requires { FitHeld s.old }
    ensures { FitHeld s.new }
{
    match word {
        b'I' => insert(s, unheard(a, b)),
        b'H' => hear_peer(s, a, b, c),
        b'R' => restart_peer(s, a, b),
        b'D' => drop_held(s, node(a)),
        _ => {}
    }
}

// Heard, dated, the last reading, the epoch, and whether the pair is the current one.
fn peer(s: &[u8], i: usize, b: u64)
    requires fit_held { FitHeld s.now }
    requires i_bound { i < held_count s.now }
{
    truth(heard_at(s, i));
    let last = last_at(s, i);
    truth(last.is_some());
    number(last.unwrap_or(0));
    number(epoch_at(s, i));
    truth(current_is(s, i, pair(7, b)));
}

fn peer_at(s: &[u8], i: usize, b: u64)
    requires { FitHeld s.now }
{
    if i < held_count(s) {
        peer(s, i, b);
    }
}

pub fn show_held(s: &[u8], word: u8, a: u64, b: u64)
    requires { FitHeld s.now }
{
    match word {
        b'C' => number(held_count(s) as u64),
        b'F' => place(find_held(s, node(a))),
        b'P' => peer_at(s, a as usize, b),
        _ => {}
    }
}
