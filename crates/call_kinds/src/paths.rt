// The calls of a link's paths: path, release.
ghost use Rattle.std.specs.Prelude.{◌≡◌, ◌<◌, get_or};
ghost use Rattle.rules.specs.Data.{Live};
ghost use Rattle.rules.specs.Field.{states};
ghost use Rattle.rules.specs.Record.{path_fields, release_fields};
ghost use Rattle.links.specs.View.{view_proven};
ghost use Rattle.refusal.specs.Code.{number_of};
ghost use Rattle.call_contract.specs.Did.{end_of};
ghost use Rattle.call_kinds.specs.Ask.{Asked, Answers};

use call_path::path::{add_path, release};
use input_call::event::{path_fields, release_fields};
use links::record::Proven;
use refusal::Refusal;

// The state of a path that a byte names: the reader has refused every other byte.
fn state_of(code: u8) -> Proven
    requires { code < 3 }
    ensures { view_proven result ≡ get_or states code Live }
{
    Proven::try_from(code).unwrap()
}

// 14: a link has a path in a state.
pub fn path_call(
    t: &mut [u8],
    out: &mut [u8],
    s: &[u8],
    at: usize,
    clock: u64,
) -> Result<usize, Refusal>
    requires { Asked path_fields clock at s.now t.old out.old }
    ensures { Answers path_fields clock at s.now t.old out.old t.new out.new (number_of result) (end_of 0 result) }
{
    let r = path_fields(s, at).ok_or(Refusal::Record)?;
    add_path(t, r.link, r.pair, state_of(r.state))?;
    Ok(0)
}

// 15: a path was released.
pub fn release_call(
    t: &mut [u8],
    out: &mut [u8],
    s: &[u8],
    at: usize,
    clock: u64,
) -> Result<usize, Refusal>
    requires { Asked release_fields clock at s.now t.old out.old }
    ensures { Answers release_fields clock at s.now t.old out.old t.new out.new (number_of result) (end_of 0 result) }
{
    let r = release_fields(s, at).ok_or(Refusal::Record)?;
    Ok(release(t, out, 0, r.link, r.pair, r.keep))
}
