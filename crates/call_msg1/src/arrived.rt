// A msg1 before it is read: what is known of it by its pair and its bytes.
ghost use Rattle.std.specs.Prelude.{[], ◌∷◌, drop, if◌then◌else◌};
ghost use Rattle.rules.specs.Data.{Full, Reject};
ghost use Rattle.rules.specs.Settle as rule;
ghost use Rattle.node_addr.specs.Place.{pair_here, PairIn};
ghost use Rattle.input_cursor.specs.Span.{FitSpan, span_of};
ghost use Rattle.output_record.specs.Write.{Puts};
ghost use Rattle.table_layout.specs.View.{view_table, FitTable};
ghost use Rattle.call_contract.specs.Did.{Space, Did};

use call_admit::put::put_msg2;
use gates_types::Denial;
use input_cursor::Span;
use node_addr::NodeAddr;
use output_record::put::put_reject;
use table_query::{full, stored};

// A Reject that names nobody, where Full holds.
fn put_full(t: &[u8], out: &mut [u8], at: usize) -> usize
    requires fit_table { FitTable t.now }
    requires space { Space out.old at (if rule.full (view_table t.now) then Reject None Full ∷ [] else []) }
    ensures { Puts out.old at (if rule.full (view_table t.now) then Reject None Full ∷ [] else []) out.new result }
{
    if full(t) {
        return put_reject(out, at, None, Denial::Full);
    }
    at
}

// The pair stands in the record from `from` on.
pub fn arrived(t: &[u8], out: &mut [u8], at: usize, s: &[u8], from: usize, m: Span) -> usize
    requires fit_table { FitTable t.now }
    requires pair_in { PairIn s.now from }
    requires fit_span { FitSpan s.now m }
    requires space { Space out.old at (rule.arrived (pair_here (drop from s.now)) (span_of s.now m) (view_table t.now)).outs }
    ensures { Did out.old at t.now out.new result (rule.arrived (pair_here (drop from s.now)) (span_of s.now m) (view_table t.now)) }
{
    match stored(t, s, from, m.at, m.len) {
        Some(i) => put_msg2(t, out, at, i, true),
        None => put_full(t, out, at),
    }
}
