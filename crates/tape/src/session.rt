// A session, record by record: the first makes the table, each other one is a call. What is written for a record stands at the front of the buffer.
ghost use Rattle.std.specs.Prelude.{◌≡◌, ◌≤◌, length};
ghost use Rattle.settle.specs.Contract.{Left};
ghost use Rattle.table_layout.specs.Layout.{table_len};
ghost use Rattle.tape.specs.Layout.{out_len};
ghost use Rattle.tape.specs.Step.{Steps};

use output_record::put::put_done;
use settle::layout::BUFFER_LEN;
use settle::{call, new, refusal_number};

// Where a session stands: no record yet; a table was made; the first record was refused.
#[derive(Clone, Copy)]
pub enum Phase {
    Before,
    Running,
    Over,
}

// The phase after a record, and how many bytes of the buffer are what was written for it.
#[derive(Clone, Copy)]
pub struct Next {
    pub phase: Phase,
    pub len: usize,
}

// The first record: a new, and its Done.
fn first(table: &mut [u8], rec: &[u8], out: &mut [u8]) -> Next
    requires whole_table { length table.old ≡ table_len }
    requires out_len_in_bounds { out_len ≤ length out.old }
    ensures { Steps Phase.Before table.old rec.now out.old table.new out.new result.phase result.len }
{
    match new(table, rec) {
        Ok(()) => Next {
            phase: Phase::Running,
            len: put_done(out, 0, 0),
        },
        Err(r) => Next {
            phase: Phase::Over,
            len: put_done(out, 0, refusal_number(r)),
        },
    }
}

// Each other one: a call, and its Done behind the outputs.
fn other(table: &mut [u8], rec: &[u8], out: &mut [u8]) -> Next
    requires left { Left table.old }
    requires out_len_in_bounds { out_len ≤ length out.old }
    ensures { Steps Phase.Running table.old rec.now out.old table.new out.new result.phase result.len }
{
    match call(table, rec, &mut out[0..BUFFER_LEN]) {
        Ok(len) => Next {
            phase: Phase::Running,
            len: put_done(out, len, 0),
        },
        Err(r) => Next {
            phase: Phase::Running,
            len: put_done(out, 0, refusal_number(r)),
        },
    }
}

// A record of a session.
pub fn step(phase: Phase, table: &mut [u8], rec: &[u8], out: &mut [u8]) -> Next
    requires whole_table { length table.old ≡ table_len }
    requires out_len_in_bounds { out_len ≤ length out.old }
    requires left { phase ≡ Phase.Running → Left table.old }
    ensures { Steps phase table.old rec.now out.old table.new out.new result.phase result.len }
{
    match phase {
        Phase::Before => first(table, rec, out),
        Phase::Running => other(table, rec, out),
        Phase::Over => Next {
            phase: Phase::Over,
            len: 0,
        },
    }
}
