// What is written for a msg1.
ghost use Rattle.std.specs.Prelude.{true, [], ◌∷◌, ◌+◌, ◌≤◌, ◌<◌, length};
ghost use Rattle.rules.specs.Data.{Output, Free, Reject};
ghost use Rattle.rules.specs.Output.{output_record};
ghost use Rattle.lib_laws.specs.Splice.{Wrote};
ghost use Rattle.gates_types.specs.View.{source_of, denial_of};
ghost use Rattle.legs.specs.At.{answer_of};
ghost use Rattle.output_record.specs.Write.{Puts};
ghost use Rattle.table_layout.specs.View.{view_table, FitTable, nth_leg};
ghost use Rattle.call_contract.specs.Did.{Space};

use gates_types::{Denial, Source};
use node_addr::NodeAddr;
use output_record::put::{put_answer, put_free, put_reject};
use table_legs::{leg_link, leg_msg2};

// The msg2 of the i-th leg, where it stands in the table.
pub fn put_msg2(t: &[u8], out: &mut [u8], at: usize, i: usize, stored: bool) -> usize
    requires fit_table { FitTable t.now }
    requires i_in_bounds { i < length (view_table t.now).legs }
    requires i_in_bounds_2 { at + (15 + length (answer_of (nth_leg (view_table t.now) i)).msg2) ≤ length out.old }
    ensures { Wrote out.old at (15 + length (answer_of (nth_leg (view_table t.now) i)).msg2)
        (output_record (Output.Answer (nth_leg (view_table t.now) i).link stored (answer_of (nth_leg (view_table t.now) i)).msg2))
        out.new result }
{
    let m = leg_msg2(t, i);
    put_answer(out, at, leg_link(t, i), stored, m)
}

// A msg1 is rejected, and its lease freed.
pub fn reject(
    out: &mut [u8],
    at: usize,
    peer: NodeAddr,
    source: Source,
    why: Denial,
    lease: u32,
) -> usize
    requires { Space out.old at (Reject (Some (peer.0, source_of source)) (denial_of why) ∷ Free lease ∷ []) }
    ensures { Puts out.old at (Reject (Some (peer.0, source_of source)) (denial_of why) ∷ Free lease ∷ []) out.new result }
{
    let a = put_reject(out, at, Some((peer, source)), why);
    put_free(out, a, lease)
}
