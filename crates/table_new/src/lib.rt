// A new table.
#![tactic(auto)]

ghost use Rattle.std.specs.Prelude.{◌≡◌, false, length};
ghost use Rattle.rules.specs.Time.{out_of_range};
ghost use Rattle.rules.specs.Entry.{new_table};
ghost use Rattle.params.specs.View.{view_params};
ghost use Rattle.params.specs.Head.{FitHead, Shows};
ghost use Rattle.table_layout.specs.View.{Told};
ghost use Rattle.table_new.specs.New.{Blank};
ghost use Rattle.params.specs.Layout.{head_len};
ghost use Rattle.table_layout.specs.Layout.{table_len};

use lib_bytes::write::clear;
use node_addr::NodeAddr;
use params::Params;
use params::head::{put_me, put_next, put_params};
use table_layout::layout::{HEAD, HEAD_END};

// Zeros throughout.
fn wipe(t: &mut [u8])
    requires { length t.old ≡ table_len }
    ensures { Blank t.new }
{
    let n = t.len();
    clear(t, 0, n);
}

// The whole head.
fn put_head(s: &mut [u8], me: NodeAddr, first: u64, c: Params)
    requires s_len { length s.old ≡ head_len }
    requires c_value { out_of_range (view_params c) ≡ false }
    ensures fit_head { FitHead s.new }
    ensures shows { Shows s.new me.0 (view_params c) first }
{
    put_params(s, c);
    put_me(s, me);
    put_next(s, first);
}

// A node that holds nothing; `first` is the number of its first link.
pub fn start(t: &mut [u8], me: NodeAddr, first: u64, c: Params)
    requires t_len { length t.old ≡ table_len }
    requires c_value { out_of_range (view_params c) ≡ false }
    ensures { Told t.new (new_table me.0 first (view_params c)) }
{
    wipe(t);
    put_head(&mut t[HEAD..HEAD_END], me, first, c);
}
