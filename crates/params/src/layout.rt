// The head of the table: the node's own address, the settings in the order of a record of new, the next link number.
use lib_bytes::layout::{U32, U64};
use node_addr::layout::NODE_LEN;

pub const ME: usize = 0;

pub const UNHEARD: usize = ME + NODE_LEN;

pub const INTERVAL: usize = UNHEARD + U64;

pub const SILENTBASE: usize = INTERVAL + U64;

pub const SILENTCAP: usize = SILENTBASE + U64;

pub const HORIZON: usize = SILENTCAP + U64;

pub const HANDSHAKE: usize = HORIZON + U64;

pub const RESEND: usize = HANDSHAKE + U64;

pub const SILENT: usize = RESEND + U64;

pub const RESENDS: usize = SILENT + U32;

pub const REPLAYS: usize = RESENDS + U32;

pub const COUNTED: usize = REPLAYS + 1;

pub const PENDING: usize = COUNTED + 1;

pub const NEXT: usize = PENDING + U64;

pub const HEAD_LEN: usize = NEXT + U64;

// How many replays, and how many counted digests, the settings may ask for.
pub const REPLAYS_MOST: u8 = 8;

pub const COUNTED_MOST: u8 = 8;
