// Parts of the i-th held peer, written in place.
ghost use Rattle.std.specs.Prelude.{◌<◌};
ghost use Rattle.node_addr.specs.View.{view_pair};
ghost use Rattle.held.specs.View.{FitHeld, held_count};
ghost use Rattle.held.specs.Change.{Changed, with_link, with_heard, last_at, with_current};

use crate::at::current_is;
use crate::layout::{CURRENT, HAS_LAST, HEARD, HELD_WIDTH, LINK};
use lib_bytes::flag::{put_flag, put_option};
use lib_bytes::layout::U64;
use lib_bytes::write::put_be;
use node_addr::place::put_pair;
use node_addr::{LinkNo, Pair};

pub fn set_link(s: &mut [u8], i: usize, link: LinkNo)
    requires fit_held { FitHeld s.old }
    requires i_bound { i < held_count s.old }
    ensures { Changed (with_link link.0) i s.old s.new }
{
    put_be(s, i * HELD_WIDTH + LINK, link.0, U64);
}

pub fn set_heard(s: &mut [u8], i: usize, heard: bool)
    requires fit_held { FitHeld s.old }
    requires i_bound { i < held_count s.old }
    ensures { Changed (with_heard heard) i s.old s.new }
{
    put_flag(s, i * HELD_WIDTH + HEARD, heard);
}

pub fn set_last(s: &mut [u8], i: usize, clock: u64)
    requires fit_held { FitHeld s.old }
    requires i_bound { i < held_count s.old }
    ensures { Changed (last_at clock) i s.old s.new }
{
    put_option(s, i * HELD_WIDTH + HAS_LAST, Some(clock));
}

// The pair is written only if it differs.
pub fn set_current(s: &mut [u8], i: usize, p: Pair)
    requires fit_held { FitHeld s.old }
    requires i_bound { i < held_count s.old }
    ensures { Changed (with_current (view_pair p)) i s.old s.new }
{
    if current_is(s, i, p) {
        return;
    }
    put_pair(s, i * HELD_WIDTH + CURRENT, p);
}
