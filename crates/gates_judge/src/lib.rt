// The judgement of a msg1, from what is remembered of its peer where that stands.
#![tactic(auto)]

ghost use Rattle.std.specs.Prelude.{◌≡◌, ◌<◌};
ghost use Rattle.rules.specs.Base.{option, Bytes};
ghost use Rattle.rules.specs.Gates as rule;
ghost use Rattle.params.specs.View.{view_params};
ghost use Rattle.gates_types.specs.View.{source_of, refused_by, held_of, view_liveness};
ghost use Rattle.gates_entry.specs.View.{FitGates, gate_count, memory_at};

use gates_entry::at::{
    epoch_at, has_silence_at, replay_count_at, replay_is, seen_at, stamp_at, until_at,
};
use gates_types::{Liveness, Refusal, Source};
use node_addr::Digest;
use params::Params;
use params::time::younger;

// Whether the silences of the i-th memory refuse a msg1 at an epoch. An unknown epoch is taken for this one.
#[tactic(auto, using(crate::specs::Tests::silencing_is))]
fn silencing(s: &[u8], i: usize, epoch: u64, clock: u64) -> bool
    requires fit_gates { FitGates s.now }
    requires i_bound { i < gate_count s.now }
    ensures { result ≡ rule.silencing (Some epoch) clock (memory_at s.now i) }
{
    has_silence_at(s, i)
        && until_at(s, i).is_some_and(|until| clock < until)
        && epoch_at(s, i).unwrap_or(epoch) == epoch
}

// Whether they refuse what asks.
pub fn silenced_at(s: &[u8], i: usize, source: Source, epoch: u64, clock: u64) -> bool
    requires fit_gates { FitGates s.now }
    requires i_bound { i < gate_count s.now }
    ensures { result ≡ rule.silenced_for clock (source_of source) (Some epoch) (memory_at s.now i) }
{
    matches!(source, Source::NotHeld | Source::Replacement) && silencing(s, i, epoch, clock)
}

// Whether what asks may be refused for the peering that it would end.
fn gated(source: Source) -> bool
    ensures { result ≡ rule.gated (source_of source) }
{
    matches!(source, Source::Restart | Source::Replacement)
}

// Over the replays of the i-th memory younger than the interval: the digest is among them, or there are as many as may be. One loop looks and counts, which no adapter does.
fn replayed(s: &[u8], i: usize, digest: Digest, clock: u64, c: Params) -> Result<(), Refusal>
    requires fit_gates { FitGates s.now }
    requires i_bound { i < gate_count s.now }
    ensures { refused_by result ≡ rule.replayed (view_params c) clock digest.0 (memory_at s.now i) }
{
    let n = replay_count_at(s, i);
    let mut live = 0;
    for j in 0..n {
        if younger(c.interval, clock, seen_at(s, i, j)) {
            if replay_is(s, i, j, digest) {
                return Err(Refusal::Replayed);
            }
            live += 1;
        }
    }
    if c.replays as usize <= live {
        return Err(Refusal::ReplayFull);
    }
    Ok(())
}

// When the peering was last alive: its last frame, else its installation.
fn alive_at(l: Liveness) -> u64
    ensures { result ≡ option (held_of l).last (held_of l).installed (λ x. x) }
{
    l.last.unwrap_or(l.installed)
}

// The peering is too young to be given up: one heard within the interval, one unheard younger than `unheard`.
#[tactic(auto, unfolding(rules::specs::Gates::young))]
fn young(l: Liveness, clock: u64, c: Params) -> Result<(), Refusal>
    ensures { refused_by result ≡ rule.young (view_params c) clock (held_of l) }
{
    if l.heard {
        if younger(c.interval, clock, alive_at(l)) {
            return Err(Refusal::Heard);
        }
    } else if younger(c.unheard, clock, l.installed) {
        return Err(Refusal::Unheard);
    }
    Ok(())
}

// A heard peering was given up within the interval.
#[tactic(auto, using(crate::specs::Tests::dampened_is))]
fn dampened(s: &[u8], i: usize, clock: u64, c: Params) -> Result<(), Refusal>
    requires fit_gates { FitGates s.now }
    requires i_bound { i < gate_count s.now }
    ensures { refused_by result ≡ rule.dampened (view_params c) clock (memory_at s.now i) }
{
    match stamp_at(s, i) {
        Some(stamp) if younger(c.interval, clock, stamp) => Err(Refusal::Dampened),
        _ => Ok(()),
    }
}

// The replays of a peering that is unheard, the floors and the dampener, in this order.
#[tactic(auto, unfolding(rules::specs::Gates::judge))]
fn judge(
    s: &[u8],
    i: usize,
    l: Liveness,
    digest: Digest,
    clock: u64,
    c: Params,
) -> Result<(), Refusal>
    requires fit_gates { FitGates s.now }
    requires i_bound { i < gate_count s.now }
    ensures { refused_by result ≡ rule.judge (view_params c) clock (Some digest.0) (held_of l) (memory_at s.now i) }
{
    if !l.heard {
        replayed(s, i, digest, clock, c)?;
    }
    young(l, clock, c)?;
    dampened(s, i, clock, c)
}

// The other judgements of what asks, by the i-th memory.
#[tactic(auto, unfolding(rules::specs::Gates::judged))]
pub fn judged_at(
    s: &[u8],
    i: usize,
    source: Source,
    l: Option<Liveness>,
    digest: Digest,
    clock: u64,
    c: Params,
) -> Result<(), Refusal>
    requires fit_gates { FitGates s.now }
    requires i_bound { i < gate_count s.now }
    ensures { refused_by result ≡ rule.judged (view_params c) clock (source_of source) (view_liveness l) digest.0 (memory_at s.now i) }
{
    match l {
        Some(l) if gated(source) => judge(s, i, l, digest, clock, c),
        _ => Ok(()),
    }
}

// The same where nothing is remembered of the peer, whatever the digest.
#[tactic(auto, using(crate::specs::Tests::blank_judged))]
pub fn judged_blank(
    source: Source,
    l: Option<Liveness>,
    clock: u64,
    c: Params,
) -> Result<(), Refusal>
    ensures { (p d : Bytes) → refused_by result ≡ rule.judged (view_params c) clock (source_of source) (view_liveness l) d (rule.blank p) }
{
    match l {
        Some(l) if gated(source) => {
            if !l.heard && c.replays == 0 {
                return Err(Refusal::ReplayFull);
            }
            young(l, clock, c)
        }
        _ => Ok(()),
    }
}
