// The regions of a table, one behind another.
use gates_entry::layout::GATES_LEN;
use held::layout::HELD_LEN;
use legs_entry::layout::LEGS_LEN;
use links_entry::layout::LINKS_LEN;
use params::layout::HEAD_LEN;

pub const HEAD: usize = 0;

pub const HEAD_END: usize = HEAD + HEAD_LEN;

pub const LINKS: usize = HEAD_END;

pub const LINKS_END: usize = LINKS + LINKS_LEN;

pub const LEGS: usize = LINKS_END;

pub const LEGS_END: usize = LEGS + LEGS_LEN;

pub const HELD: usize = LEGS_END;

pub const HELD_END: usize = HELD + HELD_LEN;

pub const GATES: usize = HELD_END;

pub const GATES_END: usize = GATES + GATES_LEN;

pub const TABLE_LEN: usize = GATES_END;
