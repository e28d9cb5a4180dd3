// Whether a msg1 is admitted. The ruling reads the peer, the digest and the epoch of it.
ghost use Rattle.std.specs.Prelude.{◌≡◌, ◌<◌, length};
ghost use Rattle.rules.specs.Data as shape;
ghost use Rattle.rules.specs.Settle as rule;
ghost use Rattle.gates_types.specs.View.{source_of};
ghost use Rattle.table_layout.specs.View.{view_table, FitTable, nth_held};
ghost use Rattle.call_admit.specs.Ruling.{denied_by, Lives, asks};

use gates_types::{Denial, Liveness, Refusal, Source};
use node_addr::{Digest, NodeAddr};
use table_gates::{find_memory, judged, silenced_for};
use table_held::{held_heard, held_installed, held_last};
use table_layout::head::params_of;
use table_query::full;

// What is judged of the i-th holder.
fn liveness_at(t: &[u8], i: usize) -> Liveness
    requires fit_table { FitTable t.now }
    requires i_in_bounds { i < length (view_table t.now).held }
    ensures { Lives (Some result) (Some (nth_held (view_table t.now) i)) }
{
    Liveness {
        heard: held_heard(t, i),
        installed: held_installed(t, i),
        last: held_last(t, i),
    }
}

// Silent, then Full, then the other judgements; `l` is what is judged of the peer's holder, if it has one.
fn ruled(
    t: &[u8],
    l: Option<Liveness>,
    peer: NodeAddr,
    digest: Digest,
    epoch: u64,
    source: Source,
    clock: u64,
) -> Result<(), Denial>
    requires fit_table { FitTable t.now }
    requires lives { Lives l (rule.held_at peer.0 (view_table t.now)) }
    ensures { denied_by result ≡ rule.denied clock (source_of source) (asks peer.0 digest.0 epoch) (view_table t.now) }
{
    let place = find_memory(t, peer);
    if silenced_for(t, place, source, epoch, clock) {
        return Err(Denial::Gate(Refusal::Silent));
    }
    if full(t) {
        return Err(Denial::Full);
    }
    judged(t, place, source, l, digest, clock, params_of(t)).map_err(Denial::Gate)
}

// The ruling on a msg1 of the peer whose holder is the i-th.
pub fn denied(
    t: &[u8],
    i: usize,
    peer: NodeAddr,
    digest: Digest,
    epoch: u64,
    source: Source,
    clock: u64,
) -> Result<(), Denial>
    requires fit_table { FitTable t.now }
    requires i_in_bounds { i < length (view_table t.now).held }
    requires t_value { rule.held_at peer.0 (view_table t.now) ≡ Some (nth_held (view_table t.now) i) }
    ensures { denied_by result ≡ rule.denied clock (source_of source) (asks peer.0 digest.0 epoch) (view_table t.now) }
{
    let l = liveness_at(t, i);
    ruled(t, Some(l), peer, digest, epoch, source, clock)
}

// The ruling on one of a peer that is not held.
pub fn denied_new(
    t: &[u8],
    peer: NodeAddr,
    digest: Digest,
    epoch: u64,
    clock: u64,
) -> Result<(), Denial>
    requires fit_table { FitTable t.now }
    requires t_value { rule.held_at peer.0 (view_table t.now) ≡ None }
    ensures { denied_by result ≡ rule.denied clock shape.Source.NotHeld (asks peer.0 digest.0 epoch) (view_table t.now) }
{
    ruled(t, None, peer, digest, epoch, Source::NotHeld, clock)
}
