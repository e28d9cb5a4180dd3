// The parts of outputs: headers, flags, messages and pairs.
#![tactic(auto)]

pub mod layout;

ghost use Rattle.std.specs.Prelude.{◌+◌, ◌≤◌, ◌<◌, length, take, drop};
ghost use Rattle.rules.specs.Field.{flag_bytes, pair_bytes, message_bytes};
ghost use Rattle.lib_laws.specs.Splice.{Wrote};
ghost use Rattle.node_addr.specs.View.{view_pair};
ghost use Rattle.output_code.specs.Codes.{kind_code};
ghost use Rattle.output_field.specs.Part.{header};

use crate::layout::FRAMED;
use lib_bytes::layout::{U16, U32};
use lib_bytes::write::{put_be, put_byte, put_run};
use node_addr::Pair;
use node_addr::layout::VERSION;
use output_code::kind::Kind;

// What stands before n bytes of fields: length (of what follows), version, kind.
pub fn put_frame(out: &mut [u8], at: usize, n: usize, kind: u8) -> usize
    requires n_bound { n + 2 < 65536 }
    requires at_in_bounds { at + 4 ≤ length out.old }
    ensures { Wrote out.old at 4 (header kind n) out.new result }
{
    let a = put_be(out, at, (n + FRAMED) as u64, U16);
    let b = put_byte(out, a, VERSION);
    put_byte(out, b, kind)
}

// The same of an output's kind.
pub fn put_kind(out: &mut [u8], at: usize, n: usize, kind: Kind) -> usize
    requires n_bound { n + 2 < 65536 }
    requires at_in_bounds { at + 4 ≤ length out.old }
    ensures { Wrote out.old at 4 (header (kind_code kind) n) out.new result }
{
    put_frame(out, at, n, kind as u8)
}

pub fn put_flag(out: &mut [u8], at: usize, b: bool) -> usize
    requires { at + 1 ≤ length out.old }
    ensures { Wrote out.old at 1 (flag_bytes b) out.new result }
{
    lib_bytes::flag::put_flag(out, at, b)
}

// A message.
pub fn put_message(out: &mut [u8], at: usize, m: &[u8]) -> usize
    requires len_bound { length m.now ≤ 128 }
    requires in_bounds { at + (2 + length m.now) ≤ length out.old }
    ensures { Wrote out.old at (2 + length m.now) (message_bytes m.now) out.new result }
{
    let n = m.len();
    let a = put_be(out, at, n as u64, U16);
    put_run(out, a, m, 0, n)
}

pub fn put_pair(out: &mut [u8], at: usize, p: Pair) -> usize
    requires { at + (5 + p.addr.len) ≤ length out.old }
    ensures { Wrote out.old at (5 + p.addr.len) (pair_bytes (view_pair p)) out.new result }
{
    let t = put_be(out, at, p.transport.0 as u64, U32);
    let l = put_be(out, t, p.addr.len as u64, 1);
    p.addr.put(out, l)
}
