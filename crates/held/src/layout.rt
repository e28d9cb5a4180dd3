// A held peer's entry, and the region of them.
use lib_bytes::layout::U64;
use node_addr::layout::{DIGEST_LEN, NODE_LEN, PAIR_WIDTH};

// The peer comes first; a flag stands before each optional field.
pub const LINK: usize = NODE_LEN;

pub const EPOCH: usize = LINK + U64;

pub const INSTALLED: usize = EPOCH + U64;

pub const HEARD: usize = INSTALLED + U64;

pub const HAS_LAST: usize = HEARD + 1;

pub const LAST: usize = HAS_LAST + 1;

pub const HAS_SETUP: usize = LAST + U64;

pub const SETUP: usize = HAS_SETUP + 1;

pub const CURRENT: usize = SETUP + DIGEST_LEN;

pub const HELD_WIDTH: usize = CURRENT + PAIR_WIDTH;

pub const HELD_CAP: usize = 32;

pub const HELD_COUNT: usize = HELD_CAP * HELD_WIDTH;

pub const HELD_LEN: usize = HELD_COUNT + 1;
