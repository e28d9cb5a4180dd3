// What is remembered of the peers in the table.
#![tactic(auto)]

ghost use Rattle.std.specs.Prelude.{◌≡◌, length, option_map};
ghost use Rattle.rules.specs.Base.{All};
ghost use Rattle.rules.specs.Std.{Ascending};
ghost use Rattle.rules.specs.Gates as rule;
ghost use Rattle.rules.specs.Settle.{with_gates};
ghost use Rattle.lib_laws.specs.Scan.{scan};
ghost use Rattle.params.specs.View.{view_params};
ghost use Rattle.gates_types.specs.View.{FitParams, Within, source_of, refused_by, view_liveness};
ghost use Rattle.gates.specs.Order.{Room};
ghost use Rattle.gates.specs.Place.{memory_in, PlaceIn};
ghost use Rattle.table_layout.specs.View.{view_table, FitTable, Told};

use gates_types::{Liveness, Refusal, Source};
use node_addr::{Digest, NodeAddr};
use params::Params;
use table_layout::layout::{GATES, GATES_END};

// How many peers are remembered.
pub fn memory_count(t: &[u8]) -> usize
    requires { FitTable t.now }
    ensures { result ≡ length (view_table t.now).gates }
{
    gates::map::memory_count(&t[GATES..GATES_END])
}

// The place of what is remembered of a peer.
pub fn find_memory(t: &[u8], peer: NodeAddr) -> Option<usize>
    requires { FitTable t.now }
    ensures { result ≡ scan (rule.memory_of peer.0) 0 (view_table t.now).gates }
{
    gates::map::find_memory(&t[GATES..GATES_END], peer)
}

// Whether the silences at a place refuse what asks.
pub fn silenced_for(t: &[u8], place: Option<usize>, source: Source, epoch: u64, clock: u64) -> bool
    requires fit_table { FitTable t.now }
    requires place_in { PlaceIn place (view_table t.now).gates }
    ensures { result ≡ rule.silenced_for clock (source_of source) (Some epoch) (memory_in place (view_table t.now).gates) }
{
    gates::calls::silenced_for(&t[GATES..GATES_END], place, source, epoch, clock)
}

// The other judgements of what asks, by the memory at a place.
pub fn judged(
    t: &[u8],
    place: Option<usize>,
    source: Source,
    l: Option<Liveness>,
    digest: Digest,
    clock: u64,
    c: Params,
) -> Result<(), Refusal>
    requires fit_table { FitTable t.now }
    requires place_in { PlaceIn place (view_table t.now).gates }
    ensures { refused_by result ≡ rule.judged (view_params c) clock (source_of source) (view_liveness l) digest.0 (memory_in place (view_table t.now).gates) }
{
    gates::calls::judged(&t[GATES..GATES_END], place, source, l, digest, clock, c)
}

// A msg1 with a digest promoted the peer unheard.
pub fn promoted(t: &mut [u8], peer: NodeAddr, digest: Digest, clock: u64, c: Params)
    requires fit_table { FitTable t.old }
    requires ascending { Ascending rule.earlier_memory (view_table t.old).gates }
    requires fit_params { FitParams c }
    requires room { Room peer.0 (view_table t.old).gates (length (view_table t.old).gates) }
    ensures { Told t.new (with_gates (rule.store (rule.promoted (view_params c) clock digest.0 (rule.memory peer.0 (view_table t.old).gates)) (view_table t.old).gates) (view_table t.old)) }
{
    gates::calls::promoted(&mut t[GATES..GATES_END], peer, digest, clock, c);
}

// A session of the peer ended unheard; `setup` is the digest of the msg1 that it came from, if it came from one.
pub fn ended(t: &mut [u8], peer: NodeAddr, epoch: u64, setup: Option<Digest>, clock: u64, c: Params)
    requires fit_table { FitTable t.old }
    requires ascending { Ascending rule.earlier_memory (view_table t.old).gates }
    requires all { All (Within (view_params c)) (view_table t.old).gates }
    requires fit_params { FitParams c }
    requires room { Room peer.0 (view_table t.old).gates (length (view_table t.old).gates) }
    ensures { Told t.new (with_gates (rule.store (rule.ended (view_params c) clock (Some epoch) (option_map (λ d. d.0) setup) (rule.memory peer.0 (view_table t.old).gates)) (view_table t.old).gates) (view_table t.old)) }
{
    gates::calls::ended(&mut t[GATES..GATES_END], peer, epoch, setup, clock, c);
}

// A heard peering of the peer was given up.
pub fn stamp(t: &mut [u8], peer: NodeAddr, clock: u64)
    requires fit_table { FitTable t.old }
    requires ascending { Ascending rule.earlier_memory (view_table t.old).gates }
    requires room { Room peer.0 (view_table t.old).gates (length (view_table t.old).gates) }
    ensures { Told t.new (with_gates (rule.store (rule.stamped clock (rule.memory peer.0 (view_table t.old).gates)) (view_table t.old).gates) (view_table t.old)) }
{
    gates::calls::stamp(&mut t[GATES..GATES_END], peer, clock);
}

// A frame of the peer authenticated: its replays and its silences are forgotten.
pub fn heard(t: &mut [u8], peer: NodeAddr)
    requires fit_table { FitTable t.old }
    requires ascending { Ascending rule.earlier_memory (view_table t.old).gates }
    ensures { Told t.new (with_gates (rule.store (rule.clear (rule.memory peer.0 (view_table t.old).gates)) (view_table t.old).gates) (view_table t.old)) }
{
    gates::calls::heard(&mut t[GATES..GATES_END], peer);
}
