// The fields of the other calls, after their clock, up to the record's end.
ghost use Rattle.std.specs.Prelude.{ℕ, ◌≤◌, ◌<◌, length, drop, get_or, IfSome, option_map};
ghost use Rattle.rules.specs.Data.{Call, Live, Why};
ghost use Rattle.rules.specs.Field.{give, whys, states};
ghost use Rattle.rules.specs.Record.{link_fields, msg2_fields, restarted_fields, heard_fields, remove_fields, path_fields, release_fields};
ghost use Rattle.node_addr.specs.View.{view_pair};
ghost use Rattle.node_addr.specs.Place.{pair_here, PairIn};
ghost use Rattle.input_call.specs.Read.{Reads};

use input_cursor::Cursor;
use node_addr::{LinkNo, NodeAddr, Pair};

#[derive(Clone, Copy)]
pub struct LinkFields {
    pub link: LinkNo,
}

#[derive(Clone, Copy)]
pub struct Msg2Fields {
    pub link: LinkNo,
    pub epoch: u64,
    pub pair: Pair,
}

#[derive(Clone, Copy)]
pub struct RestartedFields {
    pub peer: NodeAddr,
    pub epoch: u64,
}

#[derive(Clone, Copy)]
pub struct HeardFields {
    pub peer: NodeAddr,
    pub from: usize,
}

#[derive(Clone, Copy)]
pub struct RemoveFields {
    pub peer: NodeAddr,
    // below 9; the code of a Why, which stands with the outputs: no input_ crate names those
    pub why: u8,
}

#[derive(Clone, Copy)]
pub struct PathFields {
    pub link: LinkNo,
    pub pair: Pair,
    // below 3; the code of a Proven, which stands with the links: no input_ crate names those
    pub state: u8,
}

#[derive(Clone, Copy)]
pub struct ReleaseFields {
    pub link: LinkNo,
    pub pair: Pair,
    pub keep: bool,
}

// 12 poll, 13 close, 16 wake: no field.
pub fn no_fields(s: &[u8], at: usize) -> Option<()>
    requires { at ≤ length s.now }
    ensures { (c : Call) → Reads (give c) at s.now (option_map (λ u. c) result) }
{
    Cursor::new(s, at).end()
}

// 2 abandon, 6 sent, 7 unsent: link.
pub fn link_fields(s: &[u8], at: usize) -> Option<LinkFields>
    requires { at ≤ length s.now }
    ensures { (f : ℕ → Call) → Reads (link_fields f) at s.now (option_map (λ r. f r.link.0) result) }
{
    let mut cursor = Cursor::new(s, at);
    let fields = LinkFields {
        link: LinkNo(cursor.u64()?),
    };
    cursor.end()?;
    Some(fields)
}

// 8 msg2: link, epoch, pair.
pub fn msg2_fields(s: &[u8], at: usize) -> Option<Msg2Fields>
    requires { at ≤ length s.now }
    ensures { Reads msg2_fields at s.now (option_map (λ r. Call.Msg2 r.link.0 r.epoch (view_pair r.pair)) result) }
{
    let mut cursor = Cursor::new(s, at);
    let fields = Msg2Fields {
        link: LinkNo(cursor.u64()?),
        epoch: cursor.u64()?,
        pair: cursor.pair()?,
    };
    cursor.end()?;
    Some(fields)
}

// 9 restarted: peer, epoch.
pub fn restarted_fields(s: &[u8], at: usize) -> Option<RestartedFields>
    requires { at ≤ length s.now }
    ensures { Reads restarted_fields at s.now (option_map (λ r. Call.Restarted r.peer.0 r.epoch) result) }
{
    let mut cursor = Cursor::new(s, at);
    let fields = RestartedFields {
        peer: cursor.fixed()?,
        epoch: cursor.u64()?,
    };
    cursor.end()?;
    Some(fields)
}

// 10 heard: peer, pair, which stays where it stands, from `from` on.
pub fn heard_fields(s: &[u8], at: usize) -> Option<HeardFields>
    requires { at ≤ length s.now }
    ensures reads { Reads heard_fields at s.now (option_map (λ r. Call.Heard r.peer.0 (pair_here (drop r.from s.now))) result) }
    ensures pair_in { IfSome result (λ r. PairIn s.now r.from) }
{
    let mut cursor = Cursor::new(s, at);
    let fields = HeardFields {
        peer: cursor.fixed()?,
        from: cursor.skip_pair()?,
    };
    cursor.end()?;
    Some(fields)
}

// 11 remove: peer, why.
pub fn remove_fields(s: &[u8], at: usize) -> Option<RemoveFields>
    requires { at ≤ length s.now }
    ensures reads { Reads remove_fields at s.now (option_map (λ r. Call.Remove r.peer.0 (get_or whys r.why Why.Restart)) result) }
    ensures why_bound { IfSome result (λ r. r.why < 9) }
{
    let mut cursor = Cursor::new(s, at);
    let fields = RemoveFields {
        peer: cursor.fixed()?,
        why: cursor.code(9)?,
    };
    cursor.end()?;
    Some(fields)
}

// 14 path: link, pair, state.
pub fn path_fields(s: &[u8], at: usize) -> Option<PathFields>
    requires { at ≤ length s.now }
    ensures reads { Reads path_fields at s.now (option_map (λ r. Call.Path r.link.0 (view_pair r.pair) (get_or states r.state Live)) result) }
    ensures state_bound { IfSome result (λ r. r.state < 3) }
{
    let mut cursor = Cursor::new(s, at);
    let fields = PathFields {
        link: LinkNo(cursor.u64()?),
        pair: cursor.pair()?,
        state: cursor.code(3)?,
    };
    cursor.end()?;
    Some(fields)
}

// 15 release: link, pair, keep flag.
pub fn release_fields(s: &[u8], at: usize) -> Option<ReleaseFields>
    requires { at ≤ length s.now }
    ensures { Reads release_fields at s.now (option_map (λ r. Call.Release r.link.0 (view_pair r.pair) r.keep) result) }
{
    let mut cursor = Cursor::new(s, at);
    let fields = ReleaseFields {
        link: LinkNo(cursor.u64()?),
        pair: cursor.pair()?,
        keep: cursor.flag()?,
    };
    cursor.end()?;
    Some(fields)
}
