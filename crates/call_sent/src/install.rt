// A leg becomes a holder.
ghost use Rattle.std.specs.Prelude.{◌<◌, length};
ghost use Rattle.held.specs.View.{view_rec};
ghost use Rattle.table_layout.specs.View.{view_table, FitTable, Told};
ghost use Rattle.call_sent.specs.Install.{seated};

use held::record::Held;
use table_held::insert_held;
use table_legs::drop_leg;
use table_links::hold_link;

// The leg on the holder's link goes, the link is the peer's, and the peer is held.
pub fn install(t: &mut [u8], h: Held)
    requires fit_table { FitTable t.old }
    requires t_len_bound { length (view_table t.old).held < 32 }
    ensures { Told t.new (seated (view_rec h) (view_table t.old)) }
{
    let n = h.link;
    let peer = h.peer;
    drop_leg(t, n);
    hold_link(t, n, peer);
    insert_held(t, h);
}
