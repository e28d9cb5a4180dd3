// The end of a handshake leg.
ghost use Rattle.std.specs.Prelude.{◌<◌, length};
ghost use Rattle.rules.specs.Settle as rule;
ghost use Rattle.table_layout.specs.View.{view_table, FitTable, nth_leg};
ghost use Rattle.call_contract.specs.Did.{Space, Did};

use node_addr::LinkNo;
use output_closes::put_retire;
use output_record::put::put_free;
use table_legs::{drop_leg, find_leg, leg_lease, leg_link};
use table_links::retire_link;

// The i-th leg ends unfinished: its lease is freed and its link retired.
pub fn end_leg(t: &mut [u8], out: &mut [u8], at: usize, i: usize) -> usize
    requires fit_table { FitTable t.old }
    requires i_in_bounds { i < length (view_table t.old).legs }
    requires space { Space out.old at (rule.ends (nth_leg (view_table t.old) i) (view_table t.old)).outs }
    ensures { Did out.old at t.new out.new result (rule.ends (nth_leg (view_table t.old) i) (view_table t.old)) }
{
    let n = leg_link(t, i);
    let lease = leg_lease(t, i);
    let a = put_free(out, at, lease);
    drop_leg(t, n);
    let c = retire_link(t, n);
    put_retire(out, a, n, &c)
}

// The leg on a link ends, if there is one.
pub fn abandon(t: &mut [u8], out: &mut [u8], at: usize, n: LinkNo) -> usize
    requires fit_table { FitTable t.old }
    requires space { Space out.old at (rule.abandon n.0 (view_table t.old)).outs }
    ensures { Did out.old at t.new out.new result (rule.abandon n.0 (view_table t.old)) }
{
    match find_leg(t, n) {
        Some(i) => end_leg(t, out, at, i),
        None => at,
    }
}
