// When the table wants its next poll.
ghost use Rattle.std.specs.Prelude.{[], ◌∷◌};
ghost use Rattle.rules.specs.Data.{Output};
ghost use Rattle.rules.specs.Legs.{next_wake};
ghost use Rattle.output_record.specs.Write.{Puts};
ghost use Rattle.table_layout.specs.View.{view_table, FitTable};
ghost use Rattle.call_contract.specs.Did.{Space};

use output_record::put::put_wake;
use table_legs::next_wake;

// 16: the time of the first deadline or resend, if there is a leg.
pub fn wake(t: &[u8], out: &mut [u8], at: usize) -> usize
    requires fit_table { FitTable t.now }
    requires space { Space out.old at (Output.Wake (next_wake (view_table t.now).legs) ∷ []) }
    ensures { Puts out.old at (Output.Wake (next_wake (view_table t.now).legs) ∷ []) out.new result }
{
    put_wake(out, at, next_wake(t))
}
