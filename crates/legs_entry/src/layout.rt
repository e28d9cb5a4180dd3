// A leg's entry, and the region of them.
use lib_bytes::layout::{U32, U64};
use node_addr::layout::{DIGEST_LEN, MESSAGE_BYTES, MESSAGE_WIDTH, NODE_LEN};

// A flag stands before each optional field. From ANSWER_SENT to DIGEST, and MSG2: of an answer; zeros in a dial.
pub const DEADLINE: usize = U64;

pub const HAS_NEXT: usize = DEADLINE + U64;

pub const NEXT: usize = HAS_NEXT + 1;

pub const SENT: usize = NEXT + U64;

pub const LEASE: usize = SENT + U32;

pub const ANSWER: usize = LEASE + U32;

pub const HAS_PEER: usize = ANSWER + 1;

pub const PEER: usize = HAS_PEER + 1;

pub const ANSWER_SENT: usize = PEER + NODE_LEN;

pub const REPLACES: usize = ANSWER_SENT + 1;

pub const EPOCH: usize = REPLACES + 1;

pub const DIGEST: usize = EPOCH + U64;

pub const MSG1: usize = DIGEST + DIGEST_LEN;

pub const MSG1_BYTES: usize = MSG1 + MESSAGE_BYTES;

pub const MSG2: usize = MSG1 + MESSAGE_WIDTH;

pub const MSG2_BYTES: usize = MSG2 + MESSAGE_BYTES;

pub const LEG_WIDTH: usize = MSG2 + MESSAGE_WIDTH;

pub const LEG_CAP: usize = 32;

pub const LEG_COUNT: usize = LEG_CAP * LEG_WIDTH;

pub const LEGS_LEN: usize = LEG_COUNT + 1;
