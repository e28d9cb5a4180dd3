// What poll and wake look for: answers in flight, legs past their deadline, resends that are due, the earliest of them.
ghost use Rattle.std.specs.Prelude.{◌≡◌, ◌≤◌, ◌<◌, drop};
ghost use Rattle.rules.specs.Legs.{answering, wake, next_wake};
ghost use Rattle.lib_laws.specs.Scan.{scan};
ghost use Rattle.legs_entry.specs.View.{FitLegs, view_legs, leg_count, leg_at};
ghost use Rattle.legs_entry.specs.At.{resend_due, past_deadline};

use crate::map::leg_count;
use legs_entry::at::{answers_at, deadline_at, next_at};

// How many answers there are.
pub fn answering(s: &[u8]) -> usize
    requires { FitLegs s.now }
    ensures { result ≡ answering (view_legs s.now) }
{
    let n = leg_count(s);
    (0..n).filter(|i| answers_at(s, *i)).count()
}

// Whether the next resend is due.
pub fn resend_due(s: &[u8], i: usize, clock: u64) -> bool
    requires fit_legs { FitLegs s.now }
    requires i_bound { i < leg_count s.now }
    ensures { result ≡ resend_due clock (leg_at s.now i) }
{
    next_at(s, i).is_some_and(|n| n <= clock)
}

// The first leg past its deadline, which poll reaps.
pub fn find_overdue(s: &[u8], clock: u64) -> Option<usize>
    requires { FitLegs s.now }
    ensures { result ≡ scan (past_deadline clock) 0 (view_legs s.now) }
{
    let n = leg_count(s);
    (0..n).find(|i| deadline_at(s, *i) <= clock)
}

// The first leg from a place on whose resend is due.
pub fn find_resend(s: &[u8], from: usize, clock: u64) -> Option<usize>
    requires fit_legs { FitLegs s.now }
    requires from_bound { from ≤ leg_count s.now }
    ensures { result ≡ scan (resend_due clock) from (drop from (view_legs s.now)) }
{
    let n = leg_count(s);
    (from..n).find(|i| resend_due(s, *i, clock))
}

// When the leg needs a poll: at its resend if that comes before its deadline, else at the deadline.
pub fn wake_at(s: &[u8], i: usize) -> u64
    requires fit_legs { FitLegs s.now }
    requires i_bound { i < leg_count s.now }
    ensures { result ≡ wake (leg_at s.now i) }
{
    let d = deadline_at(s, i);
    next_at(s, i).unwrap_or(d).min(d)
}

// When the first leg needs a poll.
pub fn next_wake(s: &[u8]) -> Option<u64>
    requires { FitLegs s.now }
    ensures { result ≡ next_wake (view_legs s.now) }
{
    let n = leg_count(s);
    (0..n).map(|i| wake_at(s, i)).min()
}
