// Runs the functions of gates on chosen values: a script of steps from standard input, each written with its answer, numbers or a verdict, `-` for nothing.
// promote PEER DIGEST CLOCK · end PEER EPOCH ANSWERED DIGEST CLOCK · stamp PEER CLOCK · hear PEER · count · find PEER ·
// memory PEER (the stamp; how many replays; of the silences the epoch, how many, the end of the refusal, how many digests) ·
// live HOLDER INSTALLED LAST: of what is asked from there on, a holder 0 none, 1 unheard, 2 heard by its setup only, 3 heard by a frame ·
// ask PEER SOURCE DIGEST EPOCH CLOCK, a source 0 NotHeld, 1 Restart, 2 Replacement, 3 OwnMsg2, 4 RekeyMsg2
#![tactic(auto)]

mod change;
mod show;

ghost use Rattle.test_gates.specs.Kept.{Kept};

use crate::change::change;
use crate::show::{ask, live, show};
use gates_entry::layout::GATES_LEN;
use gates_types::Liveness;
use test_script::show::end_line;
use test_script::{Step, next_step};

fn step(s: &mut [u8], t: Step, l: Option<Liveness>)
    requires { Kept s.old }
    ensures { Kept s.new }
{
    change(s, t.word, t.a, t.b, t.c, t.d, t.e);
    show(s, t.word, t.a);
    ask(s, t, l);
}

fn play(s: &mut [u8], steps: &[u8])
    requires { Kept s.old }
{
    let mut l = live(0, 0, 0);
    let mut at = 0;
    // no `for`: each step says where the next line begins
    while at < steps.len() {
        let t = next_step(steps, at);
        if t.word == b'l' {
            l = live(t.a, t.b, t.c);
        }
        step(s, t, l);
        end_line();
        at = t.at;
    }
}

fn run(steps: &[u8]) {
    let mut s = [0u8; GATES_LEN];
    play(&mut s, steps);
}

fn read(buf: &mut [u8]) {
    let n = io::read_full(0, buf);
    run(&buf[..n]);
}

fn main() {
    let mut buf = [0u8; 4096];
    read(&mut buf);
}
