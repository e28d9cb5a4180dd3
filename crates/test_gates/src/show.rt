// What the region shows, and its judgements.
ghost use Rattle.gates.specs.View.{FitGates};

use gates::calls::{judged, silenced_for};
use gates::map::{find_memory, memory_count, memory_of};
use gates_types::{Liveness, Refusal, Silence, Source};
use test_script::show::{nothing, number, perhaps, place};
use test_script::values::{digest, node, settings};
use test_script::{Step, choice};

fn verdict(v: Result<(), Refusal>) {
    choice(
        b"Pass Unheard Heard Dampened Replayed ReplayFull Silent",
        match v {
            Ok(()) => 0,
            Err(r) => r as usize + 1,
        },
    );
}

fn count(s: &[u8])
    requires { FitGates s.now }
{
    number(memory_count(s) as u64);
}

fn find(s: &[u8], peer: u64)
    requires { FitGates s.now }
{
    place(find_memory(s, node(peer)));
}

// Their epoch, how many, the end of the refusal, how many digests.
fn silence(o: &Option<Silence>) {
    match o {
        Some(x) => {
            perhaps(x.epoch);
            number(x.count as u64);
            perhaps(x.until);
            number(x.counted.len() as u64);
        }
        None => {
            nothing();
            nothing();
            nothing();
            number(0);
        }
    }
}

// The stamp, how many replays, and the silences.
fn memory(s: &[u8], peer: u64)
    requires { FitGates s.now }
{
    let m = memory_of(s, node(peer));
    perhaps(m.stamp);
    number(m.replays.len() as u64);
    silence(&m.silence);
}

fn source(v: u64) -> Source {
    match v {
        0 => Source::NotHeld,
        1 => Source::Restart,
        2 => Source::Replacement,
        3 => Source::OwnMsg2,
        _ => Source::RekeyMsg2,
    }
}

pub fn live(holder: u64, installed: u64, last: u64) -> Option<Liveness> {
    (0 < holder).then(|| Liveness {
        heard: 1 < holder,
        installed,
        last: (2 < holder).then_some(last),
    })
}

// Silent, else what the other judgements say.
fn gate(s: &[u8], t: Step, l: Option<Liveness>) -> Result<(), Refusal>
    requires { FitGates s.now }
{
    let place = find_memory(s, node(t.a));
    if silenced_for(s, place, source(t.b), t.d, t.e) {
        return Err(Refusal::Silent);
    }
    judged(s, place, source(t.b), l, digest(t.c), t.e, settings())
}

pub fn ask(s: &[u8], t: Step, l: Option<Liveness>)
    requires { FitGates s.now }
{
    if t.word == b'a' {
        verdict(gate(s, t, l));
    }
}

pub fn show(s: &[u8], word: u8, a: u64)
    requires { FitGates s.now }
{
    match word {
        b'c' => count(s),
        b'f' => find(s, a),
        b'm' => memory(s, a),
        _ => {}
    }
}
