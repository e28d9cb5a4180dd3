// The digests that promoted a peer unheard, the oldest first.
#![tactic(auto)]

ghost use Rattle.std.specs.Prelude.{◌≡◌, ◌≤◌};
ghost use Rattle.rules.specs.Gates.{recent_replays, seen_in, limited, noted};
ghost use Rattle.gates_types.specs.View.{view_replays, FitReplays, spanned};

use gates_types::{Replay, Replays};
use node_addr::Digest;
use params::time::younger;

// Only those that are younger than the interval are kept.
pub fn recent_replays(r: &mut Replays, clock: u64, interval: u64)
    requires { FitReplays r.old }
    ensures fit_replays { FitReplays r.new }
    ensures r_after { view_replays r.new ≡ recent_replays (spanned interval) clock (view_replays r.old) }
{
    r.retain(|e| younger(interval, clock, e.seen));
}

// Whether a digest is among them.
fn seen_in(r: &Replays, digest: Digest) -> bool
    ensures { result ≡ seen_in digest.0 (view_replays r.now) }
{
    r.iter().any(|e| digest == e.digest)
}

// At most so many: past the limit the oldest goes.
fn limited_to(r: &mut Replays, limit: usize)
    requires { FitReplays r.old }
    ensures fit_replays { FitReplays r.new }
    ensures r_after { view_replays r.new ≡ limited limit (view_replays r.old) }
{
    if limit < r.len() {
        r.remove(0);
    }
}

// A digest that is not there is added, and past the limit the oldest goes.
pub fn noted_in(r: &mut Replays, digest: Digest, clock: u64, limit: usize)
    requires fit_replays { FitReplays r.old }
    requires limit_bound { limit ≤ 8 }
    ensures fit_replays_2 { FitReplays r.new }
    ensures r_after { view_replays r.new ≡ limited limit (noted clock digest.0 (view_replays r.old)) }
{
    if seen_in(r, digest) {
        limited_to(r, limit);
        return;
    }
    if limit <= r.len() {
        if r.is_empty() {
            return;
        }
        r.remove(0);
    }
    let e = Replay {
        digest,
        seen: clock,
    };
    r.push(e);
}
