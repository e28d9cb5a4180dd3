// What happens to a peer, in what is remembered of it; and the judgement of a msg1.
ghost use Rattle.std.specs.Prelude.{◌≡◌, ◌<◌, set, if◌then◌else◌, option_map, Some};
ghost use Rattle.rules.specs.Base.{All};
ghost use Rattle.rules.specs.Std.{Ascending};
ghost use Rattle.rules.specs.Gates as rule;
ghost use Rattle.lib_laws.specs.Shift.{erase};
ghost use Rattle.params.specs.View.{view_params};
ghost use Rattle.gates_types.specs.View.{view_digest, FitParams, Within, source_of, refused_by, view_liveness};
ghost use Rattle.gates_entry.specs.View.{view_gates, FitGates, gate_count, memory_at};
ghost use Rattle.gates.specs.Order.{Room, still};
ghost use Rattle.gates.specs.Place.{memory_in, PlaceIn};

use crate::map::{find_memory, memory_of, replace_memory, store_memory};
use gates_entry::at::{has_silence_at, replay_count_at, stamp_at};
use gates_entry::load::get_memory;
use gates_judge::{judged_at, judged_blank, silenced_at};
use gates_memory::lent::clear;
use gates_memory::{ended_by, promoted_by, stamped_at};
use gates_types::{Liveness, Refusal, Source};
use node_addr::{Digest, NodeAddr};
use params::Params;

// A msg1 with a digest promoted the peer unheard.
pub fn promoted(s: &mut [u8], peer: NodeAddr, digest: Digest, clock: u64, c: Params)
    requires fit_gates { FitGates s.old }
    requires ascending { Ascending rule.earlier_memory (view_gates s.old) }
    requires fit_params { FitParams c }
    requires room { Room peer.0 (view_gates s.old) (gate_count s.old) }
    ensures fit_gates_2 { FitGates s.new }
    ensures s_after { view_gates s.new ≡ rule.store (rule.promoted (view_params c) clock digest.0 (rule.memory peer.0 (view_gates s.old))) (view_gates s.old) }
{
    let m = memory_of(s, peer);
    let x = promoted_by(m, digest, clock, c);
    store_memory(s, x);
}

// A session of the peer ended unheard; `setup` is the digest of the msg1 that it came from, if it came from one.
pub fn ended(s: &mut [u8], peer: NodeAddr, epoch: u64, setup: Option<Digest>, clock: u64, c: Params)
    requires fit_gates { FitGates s.old }
    requires ascending { Ascending rule.earlier_memory (view_gates s.old) }
    requires all { All (Within (view_params c)) (view_gates s.old) }
    requires fit_params { FitParams c }
    requires room { Room peer.0 (view_gates s.old) (gate_count s.old) }
    ensures fit_gates_2 { FitGates s.new }
    ensures s_after { view_gates s.new ≡ rule.store (rule.ended (view_params c) clock (Some epoch) (option_map view_digest setup) (rule.memory peer.0 (view_gates s.old))) (view_gates s.old) }
{
    let m = memory_of(s, peer);
    let x = ended_by(m, epoch, setup, clock, c);
    store_memory(s, x);
}

// A heard peering of the peer was given up.
pub fn stamp(s: &mut [u8], peer: NodeAddr, clock: u64)
    requires fit_gates { FitGates s.old }
    requires ascending { Ascending rule.earlier_memory (view_gates s.old) }
    requires room { Room peer.0 (view_gates s.old) (gate_count s.old) }
    ensures fit_gates_2 { FitGates s.new }
    ensures s_after { view_gates s.new ≡ rule.store (rule.stamped clock (rule.memory peer.0 (view_gates s.old))) (view_gates s.old) }
{
    let m = memory_of(s, peer);
    let x = stamped_at(m, clock);
    store_memory(s, x);
}

// Whether the i-th memory has a stamp and nothing else.
#[tactic(auto, using(crate::specs::Still::still_is))]
fn is_still(s: &[u8], i: usize) -> bool
    requires fit_gates { FitGates s.now }
    requires i_bound { i < gate_count s.now }
    ensures { result ≡ still (memory_at s.now i) }
{
    stamp_at(s, i).is_some() && replay_count_at(s, i) == 0 && !has_silence_at(s, i)
}

// The i-th memory cleared, where there is something to clear.
fn clear_memory(s: &mut [u8], i: usize)
    requires fit_gates { FitGates s.old }
    requires i_bound { i < gate_count s.old }
    ensures fit_gates_2 { FitGates s.new }
    ensures s_after { view_gates s.new ≡ (if rule.remembers (rule.clear (memory_at s.old i)) then set (view_gates s.old) i (rule.clear (memory_at s.old i)) else erase i (view_gates s.old)) }
{
    if !is_still(s, i) {
        let mut m = get_memory(s, i);
        clear(&mut m);
        replace_memory(s, i, m);
    }
}

// A frame of the peer authenticated: its replays and its silences are forgotten.
pub fn heard(s: &mut [u8], peer: NodeAddr)
    requires fit_gates { FitGates s.old }
    requires ascending { Ascending rule.earlier_memory (view_gates s.old) }
    ensures fit_gates_2 { FitGates s.new }
    ensures s_after { view_gates s.new ≡ rule.store (rule.clear (rule.memory peer.0 (view_gates s.old))) (view_gates s.old) }
{
    if let Some(i) = find_memory(s, peer) {
        clear_memory(s, i);
    }
}

// Whether the silences at a place refuse what asks. The place is that of a peer's memory, or none where it has none.
pub fn silenced_for(s: &[u8], place: Option<usize>, source: Source, epoch: u64, clock: u64) -> bool
    requires fit_gates { FitGates s.now }
    requires place_in { PlaceIn place (view_gates s.now) }
    ensures { result ≡ rule.silenced_for clock (source_of source) (Some epoch) (memory_in place (view_gates s.now)) }
{
    match place {
        Some(i) => silenced_at(s, i, source, epoch, clock),
        None => false,
    }
}

// The other judgements of what asks, by the memory at a place.
pub fn judged(
    s: &[u8],
    place: Option<usize>,
    source: Source,
    l: Option<Liveness>,
    digest: Digest,
    clock: u64,
    c: Params,
) -> Result<(), Refusal>
    requires fit_gates { FitGates s.now }
    requires place_in { PlaceIn place (view_gates s.now) }
    ensures { refused_by result ≡ rule.judged (view_params c) clock (source_of source) (view_liveness l) digest.0 (memory_in place (view_gates s.now)) }
{
    match place {
        Some(i) => judged_at(s, i, source, l, digest, clock, c),
        None => judged_blank(source, l, clock, c),
    }
}
