// The steps that show legs.
ghost use Rattle.std.specs.Prelude.{◌<◌};
ghost use Rattle.links.specs.View.{FitLinks};
ghost use Rattle.legs.specs.View.{FitLegs, leg_count};

use legs::at::{
    answer_sent_at, answers_at, deadline_at, epoch_at, lease_at, next_at, peer_at, replaces_at,
};
use legs::map::{find_leg, leg_count};
use legs::poll::{answering, find_overdue, find_resend, next_wake, wake_at};
use legs::stored::stored;
use node_addr::LinkNo;
use test_script::show::{number, perhaps, place, truth};
use test_script::values::byte;

// All of them, and the answers.
fn counts(s: &[u8])
    requires { FitLegs s.now }
{
    number(leg_count(s) as u64);
    number(answering(s) as u64);
}

// Lease and deadline, whether a resend is to come and when, the poll.
fn times(s: &[u8], i: usize)
    requires fit_legs { FitLegs s.now }
    requires i_bound { i < leg_count s.now }
{
    number(lease_at(s, i) as u64);
    number(deadline_at(s, i));
    let next = next_at(s, i);
    truth(next.is_some());
    number(next.unwrap_or(0));
    number(wake_at(s, i));
}

// Whether it names a peer, whether it is an answer, the answer's epoch, whether it was sent, whether it replaces.
fn kind(s: &[u8], i: usize)
    requires fit_legs { FitLegs s.now }
    requires i_bound { i < leg_count s.now }
{
    truth(peer_at(s, i).is_some());
    truth(answers_at(s, i));
    number(epoch_at(s, i));
    truth(answer_sent_at(s, i));
    truth(replaces_at(s, i));
}

fn leg(s: &[u8], i: usize)
    requires { FitLegs s.now }
{
    if i < leg_count(s) {
        times(s, i);
        kind(s, i);
    }
}

fn wake(s: &[u8])
    requires { FitLegs s.now }
{
    perhaps(next_wake(s));
}

// The first resend that is due, from a place on.
fn pending(s: &[u8], from: usize, clock: u64)
    requires { FitLegs s.now }
{
    if from <= leg_count(s) {
        place(find_resend(s, from, clock));
    }
}

pub fn show_legs(s: &[u8], word: u8, a: u64, b: u64)
    requires { FitLegs s.now }
{
    match word {
        b'C' => counts(s),
        b'F' => place(find_leg(s, LinkNo(a))),
        b'L' => leg(s, a as usize),
        b'W' => wake(s),
        b'O' => place(find_overdue(s, a)),
        b'P' => pending(s, a as usize, b),
        _ => {}
    }
}

// The leg that yields its msg2 at a pair for a message, which stands in a record.
pub fn yields(links: &[u8], s: &[u8], word: u8, a: u64, b: u64)
    requires fit_links { FitLinks links.now }
    requires fit_legs { FitLegs s.now }
{
    if word == b'Y' {
        let rec = [0u8, 0u8, 0u8, 7u8, 1u8, byte(a), byte(b)];
        place(stored(links, s, &rec, 0, 6, 1));
    }
}
