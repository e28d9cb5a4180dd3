// A memory lent to be changed.
ghost use Rattle.std.specs.Prelude.{◌≡◌};
ghost use Rattle.rules.specs.Gates as rule;
ghost use Rattle.gates_types.specs.View.{view_memory, FitMemory, spanned};

use crate::{cleared, pruned};
use gates_types::Memory;

pub fn clear(m: &mut Memory)
    requires { FitMemory m.old }
    ensures fit_memory { FitMemory m.new }
    ensures m_after { view_memory m.new ≡ rule.clear (view_memory m.old) }
{
    *m = cleared(*m);
}

pub fn prune(m: &mut Memory, clock: u64, interval: u64)
    requires { FitMemory m.old }
    ensures fit_memory { FitMemory m.new }
    ensures m_after { view_memory m.new ≡ rule.prune (spanned interval) clock (view_memory m.old) }
{
    *m = pruned(*m, clock, interval);
}
