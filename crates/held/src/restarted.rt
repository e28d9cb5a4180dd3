// The i-th held peer restarted: another epoch.
ghost use Rattle.std.specs.Prelude.{◌≡◌, ◌<◌, set};
ghost use Rattle.rules.specs.Settle.{with_epoch};
ghost use Rattle.held.specs.View.{FitHeld, view_held, held_count, nth_held};

use crate::layout::{EPOCH, HELD_WIDTH};
use lib_bytes::layout::U64;
use lib_bytes::write::put_be;

pub fn set_epoch(s: &mut [u8], i: usize, epoch: u64)
    requires fit_held { FitHeld s.old }
    requires i_bound { i < held_count s.old }
    ensures fit_held_2 { FitHeld s.new }
    ensures s_after { view_held s.new ≡ set (view_held s.old) i (with_epoch epoch (nth_held s.old i)) }
{
    put_be(s, i * HELD_WIDTH + EPOCH, epoch, U64);
}
