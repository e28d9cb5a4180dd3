// A memory's entry, and the region of them.
use gates_types::{DIGEST_CAP, REPLAY_CAP};
use lib_bytes::layout::{U32, U64};
use node_addr::layout::{DIGEST_LEN, NODE_LEN};

// A replay: its digest, when it was seen. Room for eight, then how many there are.
pub const SEEN: usize = DIGEST_LEN;

pub const REPLAY_WIDTH: usize = SEEN + U64;

pub const REPLAY_COUNT: usize = REPLAY_CAP * REPLAY_WIDTH;

pub const REPLAYS_LEN: usize = REPLAY_COUNT + 1;

// The digests that a silence counted: room for eight, then how many there are.
pub const DIGEST_COUNT: usize = DIGEST_CAP * DIGEST_LEN;

pub const DIGESTS_LEN: usize = DIGEST_COUNT + 1;

// A silence: its epoch behind a flag, which comes first.
pub const EPOCH: usize = 1;

pub const COUNT: usize = EPOCH + U64;

pub const LAST: usize = COUNT + U32;

pub const HAS_UNTIL: usize = LAST + U64;

pub const UNTIL: usize = HAS_UNTIL + 1;

pub const COUNTED: usize = UNTIL + U64;

pub const SILENCE_LEN: usize = COUNTED + DIGESTS_LEN;

// A memory: the peer comes first; a flag stands before stamp and silence.
pub const HAS_STAMP: usize = NODE_LEN;

pub const STAMP: usize = HAS_STAMP + 1;

pub const HAS_SILENCE: usize = STAMP + U64;

pub const SILENCE: usize = HAS_SILENCE + 1;

pub const REPLAYS: usize = SILENCE + SILENCE_LEN;

pub const MEMORY_WIDTH: usize = REPLAYS + REPLAYS_LEN;

pub const MEMORY_CAP: usize = 32;

pub const MEMORY_COUNT: usize = MEMORY_CAP * MEMORY_WIDTH;

pub const GATES_LEN: usize = MEMORY_COUNT + 1;
