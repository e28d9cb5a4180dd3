// The memories of a region: counted, found by peer, stored.
ghost use Rattle.std.specs.Prelude.{◌≡◌, true, ◌<◌, length, set, if◌then◌else◌};
ghost use Rattle.rules.specs.Std.{Ascending};
ghost use Rattle.rules.specs.Std as std;
ghost use Rattle.rules.specs.Gates as rule;
ghost use Rattle.lib_laws.specs.Shift.{erase};
ghost use Rattle.lib_laws.specs.Scan.{scan};
ghost use Rattle.node_addr.specs.Search.{Takes};
ghost use Rattle.gates_types.specs.View.{view_memory, FitMemory};
ghost use Rattle.gates_entry.specs.View.{view_gates, FitGates, gate_count};
ghost use Rattle.gates.specs.Walk.{after};
ghost use Rattle.gates.specs.Order.{RoomFor};

use gates_entry::layout::{MEMORY_CAP, MEMORY_COUNT, MEMORY_WIDTH};
use gates_entry::load::get_memory;
use gates_entry::put::put_memory;
use gates_memory::remembers;
use gates_types::{Memory, blank_memory};
use lib_region::{count, open_chunk, remove_chunk};
use node_addr::NodeAddr;
use node_addr::search::{find_node, place_before};

#[tactic(auto, using(crate::specs::Walk::count_is))]
pub fn memory_count(s: &[u8]) -> usize
    requires { FitGates s.now }
    ensures value { result ≡ gate_count s.now }
    ensures value_2 { result ≡ length (view_gates s.now) }
{
    count(s, MEMORY_COUNT)
}

// The place of a peer's memory.
pub fn find_memory(s: &[u8], peer: NodeAddr) -> Option<usize>
    requires { FitGates s.now }
    ensures { result ≡ scan (rule.memory_of peer.0) 0 (view_gates s.now) }
{
    find_node(s, MEMORY_WIDTH, memory_count(s), peer)
}

// The place that a peer without a memory takes: before the first that it comes before, else at the end.
fn place_of(s: &[u8], peer: NodeAddr) -> usize
    requires { FitGates s.now }
    ensures { Takes result (scan (after peer.0) 0 (view_gates s.now)) (gate_count s.now) }
{
    place_before(s, MEMORY_WIDTH, memory_count(s), peer)
}

// What is remembered of a peer, blank where there is nothing.
pub fn memory_of(s: &[u8], peer: NodeAddr) -> Memory
    requires { FitGates s.now }
    ensures fit_memory { FitMemory result }
    ensures result_value { view_memory result ≡ rule.memory peer.0 (view_gates s.now) }
{
    match find_memory(s, peer) {
        Some(i) => get_memory(s, i),
        None => blank_memory(peer),
    }
}

// A memory in the place of the i-th, which goes if the memory remembers nothing.
pub fn replace_memory(s: &mut [u8], i: usize, m: Memory)
    requires fit_gates { FitGates s.old }
    requires fit_memory { FitMemory m }
    requires i_bound { i < gate_count s.old }
    ensures fit_gates_2 { FitGates s.new }
    ensures s_after { view_gates s.new ≡ (if rule.remembers (view_memory m) then set (view_gates s.old) i (view_memory m) else erase i (view_gates s.old)) }
{
    if remembers(&m) {
        put_memory(s, i * MEMORY_WIDTH, &m);
    } else {
        remove_chunk(s, MEMORY_WIDTH, MEMORY_CAP, i);
    }
}

// A memory of a peer that has none, in the order of peers.
fn insert_memory(s: &mut [u8], m: Memory)
    requires fit_gates { FitGates s.old }
    requires fit_memory { FitMemory m }
    requires s_bound { gate_count s.old < 32 }
    ensures fit_gates_2 { FitGates s.new }
    ensures s_after { view_gates s.new ≡ std.insert rule.earlier_memory (view_memory m) (view_gates s.old) }
{
    let at = place_of(s, m.peer);
    open_chunk(s, MEMORY_WIDTH, MEMORY_CAP, at);
    put_memory(s, at * MEMORY_WIDTH, &m);
}

// The same, unless it remembers nothing.
fn add_memory(s: &mut [u8], m: Memory)
    requires fit_gates { FitGates s.old }
    requires fit_memory { FitMemory m }
    requires s_bound { rule.remembers (view_memory m) ≡ true → gate_count s.old < 32 }
    ensures fit_gates_2 { FitGates s.new }
    ensures s_after { view_gates s.new ≡ (if rule.remembers (view_memory m) then std.insert rule.earlier_memory (view_memory m) (view_gates s.old) else view_gates s.old) }
{
    if remembers(&m) {
        insert_memory(s, m);
    }
}

// A memory in its peer's place; one that remembers nothing is not kept.
pub fn store_memory(s: &mut [u8], m: Memory)
    requires fit_gates { FitGates s.old }
    requires ascending { Ascending rule.earlier_memory (view_gates s.old) }
    requires fit_memory { FitMemory m }
    requires room_for { RoomFor (view_memory m) (view_gates s.old) (gate_count s.old) }
    ensures fit_gates_2 { FitGates s.new }
    ensures s_after { view_gates s.new ≡ rule.store (view_memory m) (view_gates s.old) }
{
    match find_memory(s, m.peer) {
        Some(i) => replace_memory(s, i, m),
        None => add_memory(s, m),
    }
}
