// How many bytes a number has.
pub const U16: usize = 2;

pub const U32: usize = 4;

pub const U64: usize = 8;
