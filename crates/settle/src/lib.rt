// The entries: a table is made by `new`, and changed by `call` alone. Both answer every record, whatever its bytes.
#![tactic(auto)]

pub mod layout;

ghost use Rattle.std.specs.Prelude.{◌≡◌, length};
ghost use Rattle.refusal.specs.Code.{code, number_of};
ghost use Rattle.call_contract.specs.Did.{end_of};
ghost use Rattle.settle.specs.Contract.{Left, Begun, Called};
ghost use Rattle.table_layout.specs.Layout.{table_len};

use crate::layout::BUFFER_LEN;
use call_step::step;
use input_frame::read_header;
use input_new::read_new;
use refusal::Refusal;
use table_new::start;

// Makes a table of the lent bytes.
pub fn new(table: &mut [u8], input: &[u8]) -> Result<(), Refusal>
    requires { length table.old ≡ table_len }
    ensures { Begun table.old input.now table.new (number_of result) }
{
    let r = read_new(input)?;
    start(table, r.me, r.first, r.params);
    Ok(())
}

// Answers one call: how many bytes of the buffer are outputs.
pub fn call(table: &mut [u8], input: &[u8], out: &mut [u8]) -> Result<usize, Refusal>
    requires { Left table.old }
    ensures { Called table.old input.now out.old table.new out.new (number_of result) (end_of 0 result) }
{
    if out.len() < BUFFER_LEN {
        return Err(Refusal::Buffer);
    }
    let r = read_header(input).ok_or(Refusal::Record)?;
    step(table, out, input, r.at, r.kind, r.now)
}

// The number of a refusal, as callers in C and a tape's Done have it.
pub fn refusal_number(r: Refusal) -> u8
    ensures { result ≡ code r }
{
    r as u8
}
