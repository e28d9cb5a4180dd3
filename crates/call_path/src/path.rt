// The paths of a link.
ghost use Rattle.rules.specs.Settle as rule;
ghost use Rattle.node_addr.specs.View.{view_pair};
ghost use Rattle.links.specs.View.{view_proven};
ghost use Rattle.refusal.specs.Code.{number_of};
ghost use Rattle.table_layout.specs.View.{view_table, FitTable};
ghost use Rattle.call_contract.specs.Did.{Space, Did};
ghost use Rattle.call_path.specs.Path.{Numbered};

use links::record::Proven;
use node_addr::{LinkNo, Pair};
use output_closes::put_release;
use refusal::Refusal;
use table_links::{paths_full, set_path};

// 14: link n has a path at the pair in state v, changed or new; refused where it would be a fifth.
pub fn add_path(t: &mut [u8], n: LinkNo, p: Pair, v: Proven) -> Result<(), Refusal>
    requires fit_table { FitTable t.old }
    ensures { Numbered t.old t.new (number_of result) (rule.add_path n.0 (view_pair p) (view_proven v) (view_table t.old)) }
{
    if paths_full(t, n, p) {
        return Err(Refusal::Paths);
    }
    set_path(t, n, p, v);
    Ok(())
}

// 15: link n's bundle released its path at the pair; `keep`: the peer may still send there.
pub fn release(t: &mut [u8], out: &mut [u8], at: usize, n: LinkNo, p: Pair, keep: bool) -> usize
    requires fit_table { FitTable t.old }
    requires space { Space out.old at (rule.release n.0 (view_pair p) keep (view_table t.old)).outs }
    ensures { Did out.old at t.new out.new result (rule.release n.0 (view_pair p) keep (view_table t.old)) }
{
    let closed = table_links::release(t, n, p, keep).then_some(p);
    put_release(out, at, n, closed)
}
