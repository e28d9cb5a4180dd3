// The node's own address, the settings and the next link number.
ghost use Rattle.std.specs.Prelude.{◌≡◌};
ghost use Rattle.params.specs.View.{view_params};
ghost use Rattle.table_layout.specs.View.{view_table, FitTable};

use crate::layout::{HEAD, HEAD_END};
use node_addr::NodeAddr;
use params::Params;
use params::head::{get_next, get_pending, load_me, load_params};

// The number of the next link.
pub fn next_no(t: &[u8]) -> u64
    requires { FitTable t.now }
    ensures { result ≡ (view_table t.now).next }
{
    get_next(&t[HEAD..HEAD_END])
}

pub fn me_of(t: &[u8]) -> NodeAddr
    requires { FitTable t.now }
    ensures { result.0 ≡ (view_table t.now).me }
{
    load_me(&t[HEAD..HEAD_END])
}

pub fn params_of(t: &[u8]) -> Params
    requires { FitTable t.now }
    ensures { view_params result ≡ (view_table t.now).params }
{
    load_params(&t[HEAD..HEAD_END])
}

// One setting: how many answers may be pending.
pub fn pending_of(t: &[u8]) -> u64
    requires { FitTable t.now }
    ensures { result ≡ (view_table t.now).params.pending }
{
    get_pending(&t[HEAD..HEAD_END])
}
