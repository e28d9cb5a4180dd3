// A new link with its leg.
ghost use Rattle.std.specs.Prelude.{[], ◌∷◌, ◌++◌, ◌+◌, ◌<◌, ◌^◌, length};
ghost use Rattle.rules.specs.Links.{opened};
ghost use Rattle.rules.specs.Settle.{with_links, with_legs, joined};
ghost use Rattle.node_addr.specs.View.{view_pair};
ghost use Rattle.links.specs.View.{view_dir};
ghost use Rattle.legs.specs.View.{view_leg};
ghost use Rattle.table_layout.specs.View.{view_table, FitTable, Told, with_next};

use legs::leg::Leg;
use legs::map::push_leg;
use links::record::Dir;
use links::write::open_link;
use node_addr::{LinkNo, Pair};
use params::head::put_next;
use table_layout::head::next_no;
use table_layout::layout::{HEAD, HEAD_END, LEGS, LEGS_END, LINKS, LINKS_END};

// A link set up at the pair; a leg holds it.
fn add_link(t: &mut [u8], n: LinkNo, p: Pair, d: Dir)
    requires fit_table { FitTable t.old }
    requires t_len_bound { length (view_table t.old).links < 32 }
    ensures { Told t.new (with_links ((view_table t.old).links ++ (opened n.0 (view_pair p) (view_dir d) ∷ [])) (view_table t.old)) }
{
    open_link(&mut t[LINKS..LINKS_END], n, p, d);
}

// A leg at the end.
fn add_leg(t: &mut [u8], l: Leg)
    requires fit_table { FitTable t.old }
    requires t_len_bound { length (view_table t.old).legs < 32 }
    ensures { Told t.new (with_legs ((view_table t.old).legs ++ (view_leg l ∷ [])) (view_table t.old)) }
{
    push_leg(&mut t[LEGS..LEGS_END], l);
}

// The number that the next link gets.
fn set_next(t: &mut [u8], n: u64)
    requires { FitTable t.old }
    ensures { Told t.new (with_next n (view_table t.old)) }
{
    put_next(&mut t[HEAD..HEAD_END], n);
}

// The next link, set up at the pair, with its leg; the number is used up.
pub fn open_leg(t: &mut [u8], p: Pair, d: Dir, l: Leg)
    requires fit_table { FitTable t.old }
    requires t_len_bound { length (view_table t.old).links < 32 }
    requires t_len_bound_2 { length (view_table t.old).legs < 32 }
    requires t_bound { (view_table t.old).next + 1 < 2 ^ 64 }
    ensures { Told t.new (joined (opened (view_table t.old).next (view_pair p) (view_dir d)) (view_leg l) (view_table t.old)) }
{
    let n = next_no(t);
    add_link(t, LinkNo(n), p, d);
    add_leg(t, l);
    set_next(t, n + 1);
}
