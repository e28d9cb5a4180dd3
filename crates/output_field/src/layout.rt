// The fields of outputs, in bytes, behind the frame.
use lib_bytes::layout::{U16, U32, U64};
use node_addr::layout::{FRAME_LEN, NODE_LEN, PAIR_ADDR};

// What a frame counts beside the fields: version and kind.
pub const FRAMED: usize = FRAME_LEN - U16;

pub const DONE_LEN: usize = 1;

pub const OPENED_LEN: usize = U64;

// Without the bytes of the message, of the address.
pub const ANSWER_LEN: usize = U64 + 1 + U16;

pub const RESEND_LEN: usize = U64 + U16;

pub const INSTALL_LEN: usize = NODE_LEN + U64 + PAIR_ADDR + 1 + 1 + U32;

pub const REKEY_LEN: usize = NODE_LEN + 1 + 1;

pub const RESET_LEN: usize = NODE_LEN + 1;

pub const REMOVE_LEN: usize = NODE_LEN + 1;

pub const FREE_LEN: usize = U32;

pub const RETRY_LEN: usize = NODE_LEN;

pub const REJECT_LEN: usize = 1 + NODE_LEN + 1 + 1;

pub const REJECT_NOBODY_LEN: usize = 1 + 1;

pub const WAKE_LEN: usize = 1 + U64;

pub const WAKE_NONE_LEN: usize = 1;

// Up to the pairs: Retire and Release with link and count, Close with its count.
pub const LINK_LIST_LEN: usize = U64 + 1;

pub const LINK_LIST_HEAD: usize = FRAME_LEN + LINK_LIST_LEN;

pub const LIST_LEN: usize = 1;

pub const LIST_HEAD: usize = FRAME_LEN + LIST_LEN;

// A Release with one pair, without the bytes of its address.
pub const RELEASE_ONE_LEN: usize = LINK_LIST_LEN + PAIR_ADDR;
