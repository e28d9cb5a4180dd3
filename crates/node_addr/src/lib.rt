// Node addresses, transport addresses, digests and messages, by value and at a place of lent memory.
#![tactic(auto)]

pub mod layout;
pub mod padded;
pub mod place;
pub mod search;

ghost use Rattle.std.specs.Prelude.{◌≡◌, [], replicate};
ghost use Rattle.node_addr.specs.View.{view_pair};

use crate::layout::{ADDR_CAP, DIGEST_LEN, MESSAGE_CAP, NODE_LEN};
use crate::padded::Padded;

// N bytes, compared whole.
#[derive(Clone, Copy, PartialEq, Eq)]
pub struct Fixed<const N: usize>(pub [u8; N]);

pub type NodeAddr = Fixed<NODE_LEN>;

pub type Digest = Fixed<DIGEST_LEN>;

#[derive(Clone, Copy, PartialEq, Eq, Default)]
pub struct LinkNo(pub u64);

#[derive(Clone, Copy, PartialEq, Eq, Default)]
pub struct TransportId(pub u32);

pub type Addr = Padded<ADDR_CAP>;

pub type Message = Padded<MESSAGE_CAP>;

#[derive(Clone, Copy, PartialEq, Eq)]
pub struct Pair {
    pub transport: TransportId,
    pub addr: Addr,
}

// Zeros: by hand for its clause, which a derived Default does not state.
impl<const N: usize> Default for Fixed<N> {
    fn default() -> Self
        ensures { result.0 ≡ replicate N 0 }
    {
        Fixed([0; N])
    }
}

// Transport 0, no address: by hand for its clause, which a derived Default does not state.
impl Default for Pair {
    fn default() -> Self
        ensures { view_pair result ≡ record { transport = 0; addr = [] } }
    {
        Pair {
            transport: TransportId(0),
            addr: Addr::empty(),
        }
    }
}
