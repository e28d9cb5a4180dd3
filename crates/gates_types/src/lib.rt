// What is remembered of one peer, by value: the stamp of a restart, the digests that promoted it unheard, its silences; and the cases of a judgement.
#![tactic(auto)]

ghost use Rattle.std.specs.Prelude.{◌≡◌};
ghost use Rattle.gates_types.specs.View.{blank_memory};

use lib_list::ShortList;
use node_addr::{Digest, NodeAddr};

pub const REPLAY_CAP: usize = 8;

pub const DIGEST_CAP: usize = 8;

// A digest that promoted the peer unheard, and when.
#[derive(Clone, Copy)]
pub struct Replay {
    pub digest: Digest,
    pub seen: u64,
}

// Zeros, which stand in the places past the replays: by hand for its clause, which a derived Default does not state.
impl Default for Replay {
    ghost use Rattle.gates_types.specs.View.{blank_replay};

    ghost is_default = { λ r. r ≡ blank_replay };

    fn default() -> Self {
        Replay {
            digest: Digest::default(),
            seen: 0,
        }
    }
}

// The oldest first.
pub type Replays = ShortList<Replay, REPLAY_CAP>;

pub type Digests = ShortList<Digest, DIGEST_CAP>;

// Sessions in a row that ended unheard.
#[derive(Clone, Copy)]
pub struct Silence {
    pub epoch: Option<u64>,
    pub count: u32,
    pub last: u64,
    pub until: Option<u64>,
    pub counted: Digests,
}

#[derive(Clone, Copy)]
pub struct Memory {
    pub peer: NodeAddr,
    pub stamp: Option<u64>,
    pub replays: Replays,
    pub silence: Option<Silence>,
}

// What asks for a judgement.
#[derive(Clone, Copy, PartialEq, Eq)]
pub enum Source {
    NotHeld,
    Restart,
    Replacement,
    OwnMsg2,
    RekeyMsg2,
}

// Why a msg1 is refused.
#[derive(Clone, Copy, PartialEq, Eq)]
pub enum Refusal {
    Unheard,
    Heard,
    Dampened,
    Replayed,
    ReplayFull,
    Silent,
}

// Why a msg1 is not accepted: no room, or what the gate says.
#[derive(Clone, Copy, PartialEq, Eq)]
pub enum Denial {
    Full,
    Gate(Refusal),
}

// The peering that a msg1 would end.
#[derive(Clone, Copy)]
pub struct Liveness {
    pub heard: bool,
    pub installed: u64,
    pub last: Option<u64>,
}

// Nothing remembered of a peer: no Default, since it has the peer.
pub fn blank_memory(peer: NodeAddr) -> Memory
    ensures { result ≡ blank_memory peer }
{
    Memory {
        peer,
        stamp: None,
        replays: Replays::new(),
        silence: None,
    }
}
