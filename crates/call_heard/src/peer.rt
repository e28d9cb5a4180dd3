// A held peer that restarted, or that was heard.
ghost use Rattle.std.specs.Prelude.{drop};
ghost use Rattle.rules.specs.Std.{Ascending};
ghost use Rattle.rules.specs.Gates.{earlier_memory};
ghost use Rattle.rules.specs.Settle as rule;
ghost use Rattle.node_addr.specs.Place.{pair_here, PairIn};
ghost use Rattle.table_layout.specs.View.{view_table, FitTable};
ghost use Rattle.call_contract.specs.Did.{Space, Did};

use node_addr::NodeAddr;
use output_code::Transition;
use output_record::put::put_reset;
use table_held::{find_held, hear_at, restart_at};

// 9: a held peer's session goes on under another epoch.
pub fn restarted(t: &mut [u8], out: &mut [u8], at: usize, peer: NodeAddr, epoch: u64) -> usize
    requires fit_table { FitTable t.old }
    requires space { Space out.old at (rule.restarted peer.0 epoch (view_table t.old)).outs }
    ensures { Did out.old at t.new out.new result (rule.restarted peer.0 epoch (view_table t.old)) }
{
    let Some(i) = find_held(t, peer) else {
        return at;
    };
    restart_at(t, i, epoch);
    put_reset(out, at, peer, Transition::Restarted)
}

// 10: a frame of a peer came from a pair, which stands in a record. A held one is heard, its failures are forgotten, and a differing pair is taken as current.
pub fn heard(
    t: &mut [u8],
    out: &mut [u8],
    at: usize,
    peer: NodeAddr,
    rec: &[u8],
    from: usize,
    clock: u64,
) -> usize
    requires fit_table { FitTable t.old }
    requires ascending { Ascending earlier_memory (view_table t.old).gates }
    requires pair_in { PairIn rec.now from }
    requires space { Space out.old at (rule.heard clock peer.0 (pair_here (drop from rec.now)) (view_table t.old)).outs }
    ensures { Did out.old at t.new out.new result (rule.heard clock peer.0 (pair_here (drop from rec.now)) (view_table t.old)) }
{
    let Some(i) = find_held(t, peer) else {
        return at;
    };
    let stays = hear_at(t, i, clock, rec, from);
    table_gates::heard(t, peer);
    if stays {
        return at;
    }
    put_reset(out, at, peer, Transition::Roam)
}
