// Entries of one width in a row, each with a node address at its front: the entry of an address, and the place where an address belongs.
ghost use Rattle.std.specs.Prelude.{◌≡◌, ◌*◌, ◌≤◌, length};
ghost use Rattle.rules.specs.Base.{same};
ghost use Rattle.rules.specs.Std.{before};
ghost use Rattle.lib_laws.specs.Scan.{scan};
ghost use Rattle.node_addr.specs.Search.{addresses, Takes};

use crate::NodeAddr;
use crate::layout::NODE_LEN;
use crate::place::lt_node_at;
use lib_bytes::compare::eq_bytes;

// The first of n entries that has the address. Entries are bytes of a lent region, not elements of a slice to search; and a closure that reads one would need the bound of its place once more. The address is compared word by word: as a value it would be compared from memory, each time.
pub fn find_node(s: &[u8], width: usize, n: usize, peer: NodeAddr) -> Option<usize>
    requires width_bound { 16 ≤ width }
    requires in_bounds { n * width ≤ length s.now }
    ensures { result ≡ scan (same peer.0) 0 (addresses width n s.now) }
{
    for i in 0..n {
        if eq_bytes(&peer.0, 0, s, i * width, NODE_LEN) {
            return Some(i);
        }
    }
    None
}

// Where an address belongs: before the first that is greater, else at the end.
pub fn place_before(s: &[u8], width: usize, n: usize, peer: NodeAddr) -> usize
    requires width_bound { 16 ≤ width }
    requires in_bounds { n * width ≤ length s.now }
    ensures { Takes result (scan (before peer.0) 0 (addresses width n s.now)) n }
{
    for i in 0..n {
        if lt_node_at(s, i * width, peer) {
            return i;
        }
    }
    n
}
