// A link's entry, and the region of them.
use lib_bytes::layout::U64;
use node_addr::layout::{NODE_LEN, PAIR_WIDTH};

// A path: its pair, its state in a byte. Four of them, then how many there are.
pub const PATH_STATE: usize = PAIR_WIDTH;

pub const PATH_WIDTH: usize = PATH_STATE + 1;

pub const PATH_CAP: usize = 4;

pub const PATH_COUNT: usize = PATH_CAP * PATH_WIDTH;

pub const PATHS_LEN: usize = PATH_COUNT + 1;

// The addresses of a link: its setup and its paths.
pub const ADDRESS_CAP: usize = 1 + PATH_CAP;

// A link: number, setup, direction, holder (1: a leg; 0: the peer behind it), released, paths.
pub const SETUP: usize = U64;

pub const DIR: usize = SETUP + PAIR_WIDTH;

pub const HOLDER: usize = DIR + 1;

pub const HOLDER_PEER: usize = HOLDER + 1;

pub const RELEASED: usize = HOLDER_PEER + NODE_LEN;

pub const PATHS: usize = RELEASED + 1;

pub const LINK_PATH_COUNT: usize = PATHS + PATH_COUNT;

pub const LINK_WIDTH: usize = PATHS + PATHS_LEN;

// The end of a new link's entry, which is zeros: a leg holds it, and it has no paths.
pub const OPENED_BLANK: usize = LINK_WIDTH - HOLDER_PEER;

pub const LINK_CAP: usize = 32;

pub const LINK_COUNT: usize = LINK_CAP * LINK_WIDTH;

pub const LINKS_LEN: usize = LINK_COUNT + 1;
