// Runs the functions of links and legs on chosen values: a script of steps from standard input, each written with its answer, numbers, 1 and 0 for yes and no, `-` for nothing found.
// Links: open LINK PAIR · path LINK PAIR (whether there was no room for it) · hold LINK PEER · release LINK PAIR KEEP (whether it closes) · drop LINK (how many pairs close) ·
// count · find LINK · used PAIR · at PLACE PAIR (whether it uses the pair; whether the index has it there)
// Legs: Dial LINK CLOCK RESENDS · Answer LINK CLOCK · Resent PLACE CLOCK · Sent PLACE · Unsent PLACE · Gone LINK ·
// Count (all; the answers) · Find LINK · Times PLACE (lease; deadline; whether a resend is to come and when; the poll) · Kind PLACE (whether it names a peer, is an answer; its epoch; whether it was sent, replaces) ·
// Wake · Overdue CLOCK · Pending FROM CLOCK (the first resend that is due) · Yields PAIR MESSAGE (the leg that yields its msg2)
#![tactic(auto)]

mod leg_changes;
mod leg_shows;
mod link_steps;

ghost use Rattle.links.specs.View.{FitLinks};
ghost use Rattle.legs.specs.View.{FitLegs};

use crate::leg_changes::change_legs;
use crate::leg_shows::{show_legs, yields};
use crate::link_steps::{change_links, show_links};
use legs_entry::layout::LEGS_LEN;
use links_entry::layout::LINKS_LEN;
use test_script::show::end_line;
use test_script::{Step, next_step};

fn step_links(s: &mut [u8], t: Step)
    requires { FitLinks s.old }
    ensures { FitLinks s.new }
{
    change_links(s, t.word, t.a, t.b, t.c);
    show_links(s, t.word, t.a, t.b);
}

fn step_legs(links: &[u8], s: &mut [u8], t: Step)
    requires fit_links { FitLinks links.now }
    requires fit_legs { FitLegs s.old }
    ensures { FitLegs s.new }
{
    change_legs(s, t.word, t.a, t.b, t.c);
    show_legs(s, t.word, t.a, t.b);
    yields(links, s, t.word, t.a, t.b);
}

fn play(links: &mut [u8], legs: &mut [u8], steps: &[u8])
    requires fit_links { FitLinks links.old }
    requires fit_legs { FitLegs legs.old }
{
    let mut at = 0;
    // no `for`: each step says where the next line begins
    while at < steps.len() {
        let t = next_step(steps, at);
        step_links(links, t);
        step_legs(links, legs, t);
        end_line();
        at = t.at;
    }
}

fn run(steps: &[u8]) {
    let mut links = [0u8; LINKS_LEN];
    let mut legs = [0u8; LEGS_LEN];
    play(&mut links, &mut legs, steps);
}

fn read(buf: &mut [u8]) {
    let n = io::read_full(0, buf);
    run(&buf[..n]);
}

fn main() {
    let mut buf = [0u8; 4096];
    read(&mut buf);
}
