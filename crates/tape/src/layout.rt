// The buffers of a tape: one for a record, one for what is written of it.
use lib_bytes::layout::U16;
use settle::layout::BUFFER_LEN;

// The length of a record, its first two bytes, as a number of bytes to read.
pub const LENGTH: u64 = 2;

// A record is at most its length and what that can say.
pub const RECORD_LEN: usize = U16 + 65535;

// A Done stands behind the outputs of a call.
pub const DONE_LEN: usize = 5;

pub const OUT_LEN: usize = BUFFER_LEN + DONE_LEN;
