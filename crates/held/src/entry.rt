// The bytes of a held peer, written at a place.
ghost use Rattle.std.specs.Prelude.{◌+◌, ◌≤◌, length};
ghost use Rattle.lib_laws.specs.Splice.{Wrote};
ghost use Rattle.held.specs.Entry.{held_bytes};
ghost use Rattle.held.specs.Layout.{held_width};

use crate::record::Held;
use lib_bytes::flag::{put_flag, put_option};
use lib_bytes::layout::U64;
use lib_bytes::write::put_be;
use node_addr::place::{put_fixed, put_optional, put_pair};

pub fn put_held(s: &mut [u8], at: usize, h: Held) -> usize
    requires { at + held_width ≤ length s.old }
    ensures { Wrote s.old at held_width (held_bytes h) s.new result }
{
    let a = put_fixed(s, at, h.peer);
    let b = put_be(s, a, h.link.0, U64);
    let c = put_be(s, b, h.epoch, U64);
    let d = put_be(s, c, h.installed, U64);
    let e = put_flag(s, d, h.heard);
    let f = put_option(s, e, h.last);
    let g = put_optional(s, f, h.setup);
    put_pair(s, g, h.current)
}
