// A memory changed, by value.
#![tactic(auto)]

pub mod lent;

ghost use Rattle.std.specs.Prelude.{◌≡◌, option_map};
ghost use Rattle.rules.specs.Gates as rule;
ghost use Rattle.params.specs.View.{view_params};
ghost use Rattle.gates_types.specs.View.{view_digest, view_memory, FitMemory, FitParams, Within, spanned};

use crate::lent::prune;
use gates_replays::{noted_in, recent_replays};
use gates_silence::{counting, ended_in};
use gates_types::Memory;
use node_addr::Digest;
use params::Params;

// Whether there is a stamp, a replay or a silence.
pub fn remembers(m: &Memory) -> bool
    ensures { result ≡ rule.remembers (view_memory m.now) }
{
    m.stamp.is_some() || !m.replays.is_empty() || m.silence.is_some()
}

// The peer was heard: no replay and no silence, the stamp as it was.
#[tactic(auto, unfolding(rules::specs::Gates::clear))]
pub fn cleared(mut m: Memory) -> Memory
    requires { FitMemory m }
    ensures fit_memory { FitMemory result }
    ensures result_value { view_memory result ≡ rule.clear (view_memory m) }
{
    m.replays.clear();
    m.silence = None;
    m
}

// A heard peering was given up.
pub fn stamped_at(m: Memory, clock: u64) -> Memory
    requires { FitMemory m }
    ensures fit_memory { FitMemory result }
    ensures result_value { view_memory result ≡ rule.stamped clock (view_memory m) }
{
    Memory {
        stamp: Some(clock),
        ..m
    }
}

// The replays that are no longer younger than the interval are dropped.
#[tactic(auto, unfolding(rules::specs::Gates::prune))]
pub fn pruned(mut m: Memory, clock: u64, interval: u64) -> Memory
    requires { FitMemory m }
    ensures fit_memory { FitMemory result }
    ensures result_value { view_memory result ≡ rule.prune (spanned interval) clock (view_memory m) }
{
    recent_replays(&mut m.replays, clock, interval);
    m
}

// A msg1 promoted the peer unheard.
#[tactic(auto, unfolding(rules::specs::Gates::promoted, rules::specs::Gates::prune))]
pub fn promoted_by(mut m: Memory, digest: Digest, clock: u64, c: Params) -> Memory
    requires fit_memory { FitMemory m }
    requires fit_params { FitParams c }
    ensures fit_memory_2 { FitMemory result }
    ensures result_value { view_memory result ≡ rule.promoted (view_params c) clock digest.0 (view_memory m) }
{
    prune(&mut m, clock, c.interval);
    noted_in(&mut m.replays, digest, clock, c.replays as usize);
    m
}

// A session ended unheard; `setup` is the digest of the msg1 that it came from, if it came from one.
#[tactic(auto, unfolding(rules::specs::Gates::ended))]
pub fn ended_by(m: Memory, epoch: u64, setup: Option<Digest>, clock: u64, c: Params) -> Memory
    requires fit_memory { FitMemory m }
    requires fit_params { FitParams c }
    requires within { Within (view_params c) (view_memory m) }
    ensures fit_memory_2 { FitMemory result }
    ensures result_value { view_memory result ≡ rule.ended (view_params c) clock (Some epoch) (option_map view_digest setup) (view_memory m) }
{
    let s = counting(m.silence, epoch, clock, c);
    Memory {
        silence: Some(ended_in(s, setup, clock, c)),
        ..m
    }
}
