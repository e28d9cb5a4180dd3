// Poll: legs past their deadline are reaped, and each due msg1 is repeated.
ghost use Rattle.rules.specs.Legs as rule;
ghost use Rattle.rules.specs.Settle as settle;
ghost use Rattle.output_record.specs.Write.{Puts};
ghost use Rattle.table_layout.specs.View.{view_table, FitTable};
ghost use Rattle.call_contract.specs.Did.{Space, Did};
ghost use Rattle.call_contract.specs.Sound.{Ready};

use call_remove::leg::end_leg;
use output_record::put::put_resend;
use table_legs::{find_overdue, find_resend, leg_link, leg_msg1};

// Repeats each msg1 whose resend is due.
pub fn resend_due(t: &[u8], out: &mut [u8], at: usize, clock: u64) -> usize
    requires fit_table { FitTable t.now }
    requires space { Space out.old at (rule.resends clock (view_table t.now).legs) }
    ensures { Puts out.old at (rule.resends clock (view_table t.now).legs) out.new result }
{
    let mut e = at;
    let mut from = 0;
    while let Some(i) = find_resend(t, from, clock) {
        let m = leg_msg1(t, i);
        e = put_resend(out, e, leg_link(t, i), m);
        from = i + 1;
    }
    e
}

// Each leg past its deadline ends.
pub fn reap(t: &mut [u8], out: &mut [u8], at: usize, clock: u64) -> usize
    requires ready { Ready t.old }
    requires space { Space out.old at (settle.abandons (rule.overdue clock (view_table t.old).legs) (view_table t.old)).outs }
    ensures { Did out.old at t.new out.new result (settle.abandons (rule.overdue clock (view_table t.old).legs) (view_table t.old)) }
{
    let mut e = at;
    while let Some(i) = find_overdue(t, clock) {
        e = end_leg(t, out, e, i);
    }
    e
}

pub fn poll(t: &mut [u8], out: &mut [u8], at: usize, clock: u64) -> usize
    requires ready { Ready t.old }
    requires space { Space out.old at (settle.poll clock (view_table t.old)).outs }
    ensures { Did out.old at t.new out.new result (settle.poll clock (view_table t.old)) }
{
    let a = reap(t, out, at, clock);
    resend_due(t, out, a, clock)
}
