// The record of new: its clock, which nothing uses, me, the first link number, and the settings by their form.
#![tactic(auto)]

ghost use Rattle.std.specs.Prelude.{◌≡◌, option_map};
ghost use Rattle.rules.specs.Record.{settings, form};
ghost use Rattle.input_cursor.specs.Took.{Took};
ghost use Rattle.params.specs.View.{view_params};
ghost use Rattle.input_new.specs.Begin.{Begins, News, refusal_of};

use input_cursor::Cursor;
use input_frame::kind::Kind;
use input_frame::read_frame;
use node_addr::NodeAddr;
use params::{Params, in_range};
use refusal::Refusal;

#[derive(Clone, Copy)]
pub struct New {
    pub me: NodeAddr,
    pub first: u64,
    pub params: Params,
}

// Why a record makes no table. Settings out of range are those of a record of new all the same, and what was read goes with them.
#[derive(Clone, Copy)]
pub enum NewRefusal {
    Record,
    Settings(New),
}

impl From<NewRefusal> for Refusal {
    ghost from_gives = { λ r e. e ≡ refusal_of r };

    fn from(r: NewRefusal) -> Refusal {
        match r {
            NewRefusal::Record => Refusal::Record,
            NewRefusal::Settings(_) => Refusal::Settings,
        }
    }
}

// The settings of form 1: seven spans of 8 bytes, silent 4, resends 4, replays 1, counted 1, pending 8.
pub fn next_settings(cursor: &mut Cursor) -> Option<Params>
    ensures { Took settings cursor.old (option_map view_params result) cursor.new }
{
    Some(Params {
        unheard: cursor.u64()?,
        interval: cursor.u64()?,
        silentbase: cursor.u64()?,
        silentcap: cursor.u64()?,
        horizon: cursor.u64()?,
        handshake: cursor.u64()?,
        resend: cursor.u64()?,
        silent: cursor.u32()?,
        resends: cursor.u32()?,
        replays: cursor.byte()?,
        counted: cursor.byte()?,
        pending: cursor.u64()?,
    })
}

// The form: 0 takes the default, 1 the settings that follow.
pub fn next_form(cursor: &mut Cursor) -> Option<Params>
    ensures { Took form cursor.old (option_map view_params result) cursor.new }
{
    if cursor.code(2)? == 0 {
        return Some(Params::default());
    }
    next_settings(cursor)
}

// The new that a record's bytes say, if they are a record of new; its settings may be out of range.
pub fn new_fields(rec: &[u8]) -> Option<New>
    ensures { Begins rec.now result }
{
    let f = read_frame(rec)?;
    if f.kind != Kind::New as u8 {
        return None;
    }
    let mut cursor = Cursor::new(rec, f.at);
    let _clock = cursor.u64()?;
    let new = New {
        me: cursor.fixed()?,
        first: cursor.u64()?,
        params: next_form(&mut cursor)?,
    };
    cursor.end()?;
    Some(new)
}

// The same, with its settings within range; or why it is refused.
pub fn read_new(rec: &[u8]) -> Result<New, NewRefusal>
    ensures { News rec.now result }
{
    let new = new_fields(rec).ok_or(NewRefusal::Record)?;
    if !in_range(new.params) {
        return Err(NewRefusal::Settings(new));
    }
    Ok(new)
}
