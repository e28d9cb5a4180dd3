// What becomes of a leg when what it sends went out, or did not.
ghost use Rattle.std.specs.Prelude.{◌≡◌, true, ◌<◌, length, if◌then◌else◌};
ghost use Rattle.rules.specs.Base.{is};
ghost use Rattle.rules.specs.Data.{Replace, Promote};
ghost use Rattle.rules.specs.Legs as leg;
ghost use Rattle.rules.specs.Settle as rule;
ghost use Rattle.lib_laws.specs.Scan.{scan};
ghost use Rattle.legs.specs.At.{named_peer, answer_of};
ghost use Rattle.output_code.specs.Codes.{transition_of};
ghost use Rattle.table_layout.specs.View.{view_table, FitTable, Told, nth_leg, nth_link};
ghost use Rattle.call_contract.specs.Did.{Space, Did};
ghost use Rattle.call_contract.specs.Sound.{Ready};
ghost use Rattle.call_sent.specs.Sent.{Unheard};

use crate::install::install;
use held::record::Held;
use node_addr::{LinkNo, NodeAddr};
use output_code::{Build, Transition};
use output_record::put::{put_install, put_reset};
use table_gates::promoted;
use table_held::find_held;
use table_layout::head::params_of;
use table_legs::{
    find_leg, leg_answers, leg_digest, leg_epoch, leg_lease, leg_link, leg_peer, leg_replaces,
    mark_sent, mark_unsent, resent,
};
use table_links::{find_link, link_setup};

// The answer on link n could not be sent.
pub fn unsent(t: &mut [u8], n: LinkNo)
    requires { FitTable t.old }
    ensures { Told t.new (rule.unsent n.0 (view_table t.old)).table }
{
    if let Some(i) = find_leg(t, n) {
        mark_unsent(t, i);
    }
}

// How a peer comes to be held by an answer.
fn made(replaces: bool) -> Transition
    ensures { transition_of result ≡ (if replaces then Replace else Promote) }
{
    if replaces {
        Transition::Replace
    } else {
        Transition::Promote
    }
}

// The holder that the i-th leg, an answer to the peer, becomes on the j-th link: unheard.
fn unheard(t: &[u8], i: usize, j: usize, peer: NodeAddr, clock: u64) -> Held
    requires fit_table { FitTable t.now }
    requires i_in_bounds { i < length (view_table t.now).legs }
    requires j_in_bounds { j < length (view_table t.now).links }
    ensures { Unheard result clock peer.0 (nth_leg (view_table t.now) i) (nth_link (view_table t.now) j) }
{
    Held {
        peer,
        link: leg_link(t, i),
        epoch: leg_epoch(t, i),
        installed: clock,
        heard: false,
        last: None,
        setup: Some(leg_digest(t, i)),
        current: link_setup(t, j),
    }
}

// The i-th leg's answer to the peer that it names was sent: the peer is held, unheard, on the j-th link.
pub fn promote(t: &mut [u8], out: &mut [u8], at: usize, i: usize, j: usize, clock: u64) -> usize
    requires ready { Ready t.old }
    requires i_in_bounds { i < length (view_table t.old).legs }
    requires t_value { rule.leg_at (nth_leg (view_table t.old) i).link (view_table t.old) ≡ Some (nth_leg (view_table t.old) i) }
    requires i_value { is (nth_leg (view_table t.old) i).peer ≡ true }
    requires j_in_bounds { j < length (view_table t.old).links }
    requires space { Space out.old at (rule.promote clock (named_peer (nth_leg (view_table t.old) i)) (answer_of (nth_leg (view_table t.old) i)) (nth_leg (view_table t.old) i) (nth_link (view_table t.old) j) (view_table t.old)).outs }
    ensures { Did out.old at t.new out.new result (rule.promote clock (named_peer (nth_leg (view_table t.old) i)) (answer_of (nth_leg (view_table t.old) i)) (nth_leg (view_table t.old) i) (nth_link (view_table t.old) j) (view_table t.old)) }
{
    let peer = leg_peer(t, i).unwrap();
    let h = unheard(t, i, j, peer, clock);
    let digest = leg_digest(t, i);
    let lease = leg_lease(t, i);
    let how = made(leg_replaces(t, i));
    let c = params_of(t);
    let a = put_install(out, at, peer, h.link, h.current, Build::Fresh, false, lease);
    let r = put_reset(out, a, peer, how);
    promoted(t, peer, digest, clock, c);
    install(t, h);
    r
}

// The i-th leg's answer, on link n, was sent.
fn answer_sent(t: &mut [u8], out: &mut [u8], at: usize, i: usize, n: LinkNo, clock: u64) -> usize
    requires ready { Ready t.old }
    requires t_value { scan (leg.on_link n.0) 0 (view_table t.old).legs ≡ Some i }
    requires i_value { leg.answers (nth_leg (view_table t.old) i) ≡ true }
    requires space { Space out.old at (rule.sent clock n.0 (view_table t.old)).outs }
    ensures { Did out.old at t.new out.new result (rule.sent clock n.0 (view_table t.old)) }
{
    let Some(peer) = leg_peer(t, i) else {
        return at;
    };
    if find_held(t, peer).is_some() {
        mark_sent(t, i);
        return at;
    }
    let Some(j) = find_link(t, n) else {
        return at;
    };
    promote(t, out, at, i, j, clock)
}

// What link n's leg sends went out: a resend of a dial is counted, an answer makes its peer held.
pub fn sent(t: &mut [u8], out: &mut [u8], at: usize, n: LinkNo, clock: u64) -> usize
    requires ready { Ready t.old }
    requires space { Space out.old at (rule.sent clock n.0 (view_table t.old)).outs }
    ensures { Did out.old at t.new out.new result (rule.sent clock n.0 (view_table t.old)) }
{
    let Some(i) = find_leg(t, n) else {
        return at;
    };
    if leg_answers(t, i) {
        return answer_sent(t, out, at, i, n, clock);
    }
    let c = params_of(t);
    resent(t, i, clock, c);
    at
}
