// Runs the functions of node_addr, params and held on chosen values: a script of steps from standard input, each written with its answer, numbers, 1 and 0 for yes and no, `-` for nothing found.
// node_addr: nodes A B (whether they are the same; whether the first is before) · pairs TRANSPORT BYTE TRANSPORT BYTE (whether they are the same)
// params: settings (by default) · in_range COUNTED REPLAYS · factor EXPONENT · backoff EXPONENT BASE CAP · deadline CLOCK SPAN · resend CLOCK EXPONENT BASE · age CLOCK WAS · younger SPAN CLOCK WAS
// held: Insert PEER LINK · Hear PEER CLOCK BYTE (whether the pair was the current one) · Restart PEER EPOCH · Drop PEER · Count · Find PEER · Peer PLACE BYTE (heard; dated; the last reading; the epoch; whether the pair is the current one)
#![tactic(auto)]

mod held_steps;
mod plain;
mod times;

ghost use Rattle.held.specs.View.{FitHeld};

use crate::held_steps::{change_held, show_held};
use crate::plain::show_plain;
use crate::times::show_times;
use held::layout::HELD_LEN;
use test_script::show::end_line;
use test_script::{Step, next_step};

fn plain_step(t: Step) {
    show_plain(t.word, t.a, t.b, t.c, t.d);
    show_times(t.word, t.a, t.b, t.c);
}

fn held_step(s: &mut [u8], t: Step)
    requires { FitHeld s.old }
    ensures { FitHeld s.new }
{
    change_held(s, t.word, t.a, t.b, t.c);
    show_held(s, t.word, t.a, t.b);
}

fn play(s: &mut [u8], steps: &[u8])
    requires { FitHeld s.old }
{
    let mut at = 0;
    // no `for`: each step says where the next line begins
    while at < steps.len() {
        let t = next_step(steps, at);
        plain_step(t);
        held_step(s, t);
        end_line();
        at = t.at;
    }
}

fn main() {
    let mut buf = [0u8; 4096];
    let n = io::read_full(0, &mut buf);
    let mut s = [0u8; HELD_LEN];
    play(&mut s, &buf[..n]);
}
