// Widths of what stands in records and in lent memory.
use lib_bytes::layout::{U16, U32};

pub const NODE_LEN: usize = 16;

pub const DIGEST_LEN: usize = 32;

// A pair: transport, the address's length in a byte, the address. In memory the address has its full width.
pub const ADDR_CAP: usize = 48;

pub const PAIR_LEN: usize = U32;

pub const PAIR_ADDR: usize = PAIR_LEN + 1;

pub const PAIR_WIDTH: usize = PAIR_ADDR + ADDR_CAP;

// A message in memory: its length in a byte, then its full width.
pub const MESSAGE_CAP: usize = 128;

pub const MESSAGE_BYTES: usize = 1;

pub const MESSAGE_WIDTH: usize = MESSAGE_BYTES + MESSAGE_CAP;

// The frame that a record and an output begin with: the length of what follows, the version, the kind.
pub const VERSION: u8 = 1;

pub const FRAME_VERSION: usize = U16;

pub const FRAME_KIND: usize = FRAME_VERSION + 1;

pub const FRAME_LEN: usize = FRAME_KIND + 1;
