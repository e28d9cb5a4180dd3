// All legs at once.
ghost use Rattle.std.specs.Prelude.{[]};
ghost use Rattle.rules.specs.Settle as settle;
ghost use Rattle.table_layout.specs.View.{view_table, FitTable, Told};

use crate::leg_count;
use legs_entry::layout::LEGS_LEN;
use lib_bytes::write::clear;
use table_layout::layout::{LEGS, LEGS_END};

// No legs are left.
pub fn clear_legs(t: &mut [u8])
    requires { FitTable t.old }
    ensures { Told t.new (settle.with_legs [] (view_table t.old)) }
{
    if leg_count(t) == 0 {
        return;
    }
    clear(&mut t[LEGS..LEGS_END], 0, LEGS_LEN);
}
