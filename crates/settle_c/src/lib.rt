// The entries of settle for C and Rust: slices are a pointer and a length.
#![tactic(auto)]

ghost use Rattle.std.specs.Prelude.{◌≡◌, length};
ghost use Rattle.settle.specs.Contract.{Left, Begun, Called};
ghost use Rattle.table_layout.specs.Layout.{table_len};

use settle::{call, new, refusal_number};
use table_layout::layout::TABLE_LEN;

// What a call answers to a driver, laid out as in C: `number` is the refusal's, 0 for none; `len` is where the outputs end.
#[repr(C)]
#[derive(Clone, Copy)]
pub struct Answer {
    pub number: u8,
    pub len: usize,
}

// How many bytes a table has.
#[unsafe(no_mangle)]
pub extern "C" fn settle_table_size() -> usize
    ensures { result ≡ table_len }
{
    TABLE_LEN
}

#[unsafe(no_mangle)]
pub extern "C" fn settle_new(table: &mut [u8], input: &[u8]) -> u8
    requires { length table.old ≡ table_len }
    ensures { Begun table.old input.now table.new result }
{
    match new(table, input) {
        Ok(()) => 0,
        Err(r) => refusal_number(r),
    }
}

#[unsafe(no_mangle)]
pub extern "C" fn settle_call(table: &mut [u8], input: &[u8], out: &mut [u8]) -> Answer
    requires { Left table.old }
    ensures { Called table.old input.now out.old table.new out.new result.number result.len }
{
    match call(table, input, out) {
        Ok(len) => Answer { number: 0, len },
        Err(r) => Answer {
            number: refusal_number(r),
            len: 0,
        },
    }
}
