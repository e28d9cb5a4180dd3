// Close: every leg and every held peer ends.
ghost use Rattle.std.specs.Prelude.{map, ◌+◌, ◌≤◌};
ghost use Rattle.rules.specs.Data.{Free};
ghost use Rattle.rules.specs.Settle as settle;
ghost use Rattle.output_record.specs.Write.{Puts};
ghost use Rattle.table_layout.specs.View.{view_table, FitTable, Told};
ghost use Rattle.call_contract.specs.Did.{Space, Did};
ghost use Rattle.call_contract.specs.Sound.{Ready};
ghost use Rattle.call_close.specs.Close.{closing, close_of, unlinked, Listed};

use call_remove::peer::remove_at;
use output_closes::{put_close_header, put_pairs};
use output_code::Why;
use output_field::layout::LIST_HEAD;
use output_record::put::put_free;
use table_held::{held_count, held_peer};
use table_legs::clear::clear_legs;
use table_legs::{leg_count, leg_lease, leg_link};
use table_links::retire_link;

// Frees the lease of each leg.
pub fn free_all(t: &[u8], out: &mut [u8], at: usize) -> usize
    requires fit_table { FitTable t.now }
    requires space { Space out.old at (map (λ g. Free g.lease) (view_table t.now).legs) }
    ensures { Puts out.old at (map (λ g. Free g.lease) (view_table t.now).legs) out.new result }
{
    let mut e = at;
    for i in 0..leg_count(t) {
        e = put_free(out, e, leg_lease(t, i));
    }
    e
}

// Pairs in a row: how many, and where they end.
#[derive(Clone, Copy)]
struct Row {
    count: usize,
    end: usize,
}

// Retires the link of each leg, and writes what is to close behind a header.
// The place behind these may be past the end of the buffer where nothing is to close.
fn retire_links(t: &mut [u8], out: &mut [u8], at: usize) -> Row
    requires fit_table { FitTable t.old }
    requires space { Space out.old at (close_of (closing (view_table t.old))) }
    ensures told { Told t.new (unlinked (view_table t.old)) }
    ensures listed { Listed out.old (at + 5) (closing (view_table t.old)) out.new result.end result.count }
    ensures count_bound { result.count ≤ 160 }
{
    let n = leg_count(t);
    let mut e = at + LIST_HEAD;
    let mut count = 0;
    for i in 0..n {
        let link = leg_link(t, i);
        let c = retire_link(t, link);
        let k = c.len();
        if k == 0 {
            continue;
        }
        e = put_pairs(out, e, &c);
        count += k;
    }
    Row { count, end: e }
}

// Retires the link of each leg; one Close lists what is to close, if anything is.
fn close_links(t: &mut [u8], out: &mut [u8], at: usize) -> usize
    requires fit_table { FitTable t.old }
    requires space { Space out.old at (close_of (closing (view_table t.old))) }
    ensures told { Told t.new (unlinked (view_table t.old)) }
    ensures puts { Puts out.old at (close_of (closing (view_table t.old))) out.new result }
{
    let r = retire_links(t, out, at);
    let count = r.count;
    let end = r.end;
    if count == 0 {
        return at;
    }
    put_close_header(out, at, count, end - at - LIST_HEAD);
    end
}

// Every leg ends: its lease is freed, its link retired.
pub fn close_legs(t: &mut [u8], out: &mut [u8], at: usize) -> usize
    requires fit_table { FitTable t.old }
    requires space { Space out.old at (settle.close_legs (view_table t.old)).outs }
    ensures { Did out.old at t.new out.new result (settle.close_legs (view_table t.old)) }
{
    let a = free_all(t, out, at);
    let b = close_links(t, out, a);
    clear_legs(t);
    b
}

// Every held peer goes, in order.
pub fn remove_all(t: &mut [u8], out: &mut [u8], at: usize, clock: u64) -> usize
    requires ready { Ready t.old }
    requires space { Space out.old at (settle.removes clock (map (λ h. h.peer) (view_table t.old).held) (view_table t.old)).outs }
    ensures { Did out.old at t.new out.new result (settle.removes clock (map (λ h. h.peer) (view_table t.old).held) (view_table t.old)) }
{
    let n = held_count(t);
    let mut e = at;
    for _ in 0..n {
        let p = held_peer(t, 0);
        e = remove_at(t, out, e, 0, p, Why::Closed, clock);
    }
    e
}

pub fn close(t: &mut [u8], out: &mut [u8], at: usize, clock: u64) -> usize
    requires ready { Ready t.old }
    requires space { Space out.old at (settle.close clock (view_table t.old)).outs }
    ensures { Did out.old at t.new out.new result (settle.close clock (view_table t.old)) }
{
    let a = close_legs(t, out, at);
    remove_all(t, out, a, clock)
}
