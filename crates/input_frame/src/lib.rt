// The start of a record: length (of what follows), version 1, kind, clock.
#![tactic(auto)]

pub mod kind;

ghost use Rattle.std.specs.Prelude.{◌≡◌, ◌≤◌, length, drop, option_map, IfSome};
ghost use Rattle.input_frame.specs.Frame.{heading, header};

use input_cursor::Cursor;
use lib_bytes::layout::U16;
use lib_bytes::read::get_be;
use node_addr::layout::{FRAME_KIND, FRAME_LEN, FRAME_VERSION, VERSION};

// The rest of the record is at `at`. The kind is the record's byte, since the frame is right with any: what follows a byte of no kind is refused later.
#[derive(Clone, Copy)]
pub struct Frame {
    pub kind: u8,
    pub at: usize,
}

// Length, version and kind.
pub fn read_frame(rec: &[u8]) -> Option<Frame>
    ensures is { heading rec.now ≡ option_map (λ f. (f.kind, drop f.at rec.now)) result }
    ensures room { IfSome result (λ f. f.at ≤ length rec.now) }
{
    if rec.len() < FRAME_LEN {
        return None;
    }
    if get_be(rec, 0, U16) as usize + U16 != rec.len() {
        return None;
    }
    if rec[FRAME_VERSION] != VERSION {
        return None;
    }
    Some(Frame {
        kind: rec[FRAME_KIND],
        at: FRAME_LEN,
    })
}

// The fields of a call are from `at` on. The kind is the record's byte, as in Frame.
#[derive(Clone, Copy)]
pub struct Header {
    pub kind: u8,
    pub now: u64,
    pub at: usize,
}

// Frame and clock of a call.
pub fn read_header(rec: &[u8]) -> Option<Header>
    ensures is { header rec.now ≡ option_map (λ h. ((h.kind, h.now), drop h.at rec.now)) result }
    ensures room { IfSome result (λ h. h.at ≤ length rec.now) }
{
    let f = read_frame(rec)?;
    let mut cursor = Cursor::new(rec, f.at);
    let now = cursor.u64()?;
    Some(Header {
        kind: f.kind,
        now,
        at: cursor.at,
    })
}
