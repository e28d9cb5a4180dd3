// The head region: the node's own address, the settings, the next link number.
ghost use Rattle.std.specs.Prelude.{◌≡◌, false, ◌+◌, ◌≤◌, length};
ghost use Rattle.rules.specs.Time.{out_of_range};
ghost use Rattle.lib_laws.specs.Splice.{Wrote};
ghost use Rattle.params.specs.View.{view_params};
ghost use Rattle.params.specs.Head.{view_me, view_next, params_of, FitHead, Shows, spans_cell, counts_cell};
ghost use Rattle.params.specs.Layout.{head_len};

use crate::Params;
use crate::layout::{
    COUNTED, HANDSHAKE, HORIZON, INTERVAL, ME, NEXT, PENDING, REPLAYS, RESEND, RESENDS, SILENT,
    SILENTBASE, SILENTCAP, UNHEARD,
};
use lib_bytes::layout::{U32, U64};
use lib_bytes::read::{get_be, get_byte};
use lib_bytes::write::{put_be, put_byte};
use node_addr::NodeAddr;
use node_addr::place::{load_fixed, put_fixed};

pub fn load_me(s: &[u8]) -> NodeAddr
    requires { FitHead s.now }
    ensures { result.0 ≡ view_me s.now }
{
    load_fixed(s, ME)
}

pub fn put_me(s: &mut [u8], n: NodeAddr)
    requires { FitHead s.old }
    ensures fit_head { FitHead s.new }
    ensures shows { Shows s.new n.0 (params_of s.old) (view_next s.old) }
{
    put_fixed(s, ME, n);
}

pub fn get_next(s: &[u8]) -> u64
    requires { FitHead s.now }
    ensures { result ≡ view_next s.now }
{
    get_be(s, NEXT, U64)
}

pub fn put_next(s: &mut [u8], n: u64)
    requires { FitHead s.old }
    ensures fit_head { FitHead s.new }
    ensures shows { Shows s.new (view_me s.old) (params_of s.old) n }
{
    put_be(s, NEXT, n, U64);
}

// Field by field: a struct has no layout of bytes of its own choosing to be read and written by.
pub fn load_params(s: &[u8]) -> Params
    requires { FitHead s.now }
    ensures { view_params result ≡ params_of s.now }
{
    Params {
        unheard: get_be(s, UNHEARD, U64),
        interval: get_be(s, INTERVAL, U64),
        replays: get_byte(s, REPLAYS),
        silent: get_be(s, SILENT, U32) as u32,
        silentbase: get_be(s, SILENTBASE, U64),
        silentcap: get_be(s, SILENTCAP, U64),
        horizon: get_be(s, HORIZON, U64),
        counted: get_byte(s, COUNTED),
        handshake: get_be(s, HANDSHAKE, U64),
        resend: get_be(s, RESEND, U64),
        resends: get_be(s, RESENDS, U32) as u32,
        pending: get_be(s, PENDING, U64),
    }
}

// One setting: how many answers may be pending.
pub fn get_pending(s: &[u8]) -> u64
    requires { FitHead s.now }
    ensures { result ≡ (params_of s.now).pending }
{
    get_be(s, PENDING, U64)
}

// The seven spans.
fn put_spans(s: &mut [u8], at: usize, p: Params) -> usize
    requires { at + 56 ≤ length s.old }
    ensures { Wrote s.old at 56 (spans_cell p) s.new result }
{
    let a = put_be(s, at, p.unheard, U64);
    let b = put_be(s, a, p.interval, U64);
    let c = put_be(s, b, p.silentbase, U64);
    let d = put_be(s, c, p.silentcap, U64);
    let e = put_be(s, d, p.horizon, U64);
    let f = put_be(s, e, p.handshake, U64);
    put_be(s, f, p.resend, U64)
}

// The counts.
fn put_counts(s: &mut [u8], at: usize, p: Params) -> usize
    requires { at + 18 ≤ length s.old }
    ensures { Wrote s.old at 18 (counts_cell p) s.new result }
{
    let a = put_be(s, at, p.silent as u64, U32);
    let b = put_be(s, a, p.resends as u64, U32);
    let c = put_byte(s, b, p.replays);
    let d = put_byte(s, c, p.counted);
    put_be(s, d, p.pending, U64)
}

pub fn put_params(s: &mut [u8], p: Params)
    requires s_len { length s.old ≡ head_len }
    requires p_value { out_of_range (view_params p) ≡ false }
    ensures fit_head { FitHead s.new }
    ensures shows { Shows s.new (view_me s.old) (view_params p) (view_next s.old) }
{
    let a = put_spans(s, UNHEARD, p);
    put_counts(s, a, p);
}
