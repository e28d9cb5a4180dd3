// The cases that an output names, and the byte of each: of a case that stands in the order of its codes it is `case as u8`.
#![tactic(auto)]

pub mod kind;

ghost use Rattle.std.specs.Prelude.{◌≡◌, ◌<◌};
ghost use Rattle.rules.specs.Field.{why_code};
ghost use Rattle.rules.specs.Output.{denial_code};
ghost use Rattle.gates_types.specs.View.{denial_of};
ghost use Rattle.output_code.specs.Codes.{why_of, DecodesWhy};

use gates_types::{Denial, Refusal};

// Why a held peer goes.
#[derive(Clone, Copy)]
pub enum Why {
    Restart,
    Replacement,
    OwnRestart,
    Ended,
    Orphaned,
    Disconnect,
    Dead,
    Admin,
    Closed,
}

// A byte that is no reason.
#[derive(Clone, Copy)]
pub struct UnknownWhy(pub u8);

// How a session is built.
#[derive(Clone, Copy)]
pub enum Build {
    Fresh,
    FromCarry,
}

// What becomes of a held peer's session.
#[derive(Clone, Copy)]
pub enum Transition {
    Promote,
    Replace,
    Move,
    Keep,
    Restarted,
    Roam,
}

impl TryFrom<u8> for Why {
    type Error = UnknownWhy;

    ghost try_from_gives = { DecodesWhy };

    fn try_from(code: u8) -> Result<Self, UnknownWhy> {
        match code {
            0 => Ok(Why::Restart),
            1 => Ok(Why::Replacement),
            2 => Ok(Why::OwnRestart),
            3 => Ok(Why::Ended),
            4 => Ok(Why::Orphaned),
            5 => Ok(Why::Disconnect),
            6 => Ok(Why::Dead),
            7 => Ok(Why::Admin),
            8 => Ok(Why::Closed),
            _ => Err(UnknownWhy(code)),
        }
    }
}

// The case of a byte that is known to name one.
pub fn why_of(code: u8) -> Why
    requires { code < 9 }
    ensures { why_code (why_of result) ≡ code }
{
    Why::try_from(code).unwrap()
}

// The reason byte of a Reject: a match, since a Gate carries a refusal.
pub fn denial_code(d: Denial) -> u8
    ensures { result ≡ denial_code (denial_of d) }
{
    match d {
        Denial::Full => 0,
        Denial::Gate(r) => match r {
            Refusal::Unheard => 1,
            Refusal::Heard => 2,
            Refusal::Dampened => 3,
            Refusal::Replayed => 4,
            Refusal::ReplayFull => 5,
            Refusal::Silent => 6,
        },
    }
}
