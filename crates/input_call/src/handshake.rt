// The fields of the calls that carry a message, after their clock, up to the record's end.
ghost use Rattle.std.specs.Prelude.{◌≤◌, length, drop, IfSome, option_map};
ghost use Rattle.rules.specs.Data.{Call};
ghost use Rattle.rules.specs.Record.{hello, dial_fields, arrived_fields, msg1_fields, replacement_fields};
ghost use Rattle.node_addr.specs.View.{view_pair};
ghost use Rattle.node_addr.specs.Padded.{view};
ghost use Rattle.node_addr.specs.Place.{pair_here, PairIn};
ghost use Rattle.input_cursor.specs.Took.{Took};
ghost use Rattle.input_cursor.specs.Span.{span_of, FitSpan};
ghost use Rattle.input_call.specs.Read.{Reads};
ghost use Rattle.input_call.specs.Hello.{hello_of, FitHello};

use crate::hello::Hello;
use input_cursor::{Cursor, Span};
use node_addr::{Message, NodeAddr, Pair};

#[derive(Clone, Copy)]
pub struct DialFields {
    pub peer: NodeAddr,
    pub pair: Pair,
    pub message: Message,
    pub lease: u32,
}

#[derive(Clone, Copy)]
pub struct ArrivedFields {
    pub from: usize,
    pub message: Span,
}

#[derive(Clone, Copy)]
pub struct Msg1Fields {
    pub hello: Hello,
    pub reachable: bool,
}

#[derive(Clone, Copy)]
pub struct ReplacementFields {
    pub hello: Hello,
}

// 1 dial: peer, pair, msg1, lease.
pub fn dial_fields(s: &[u8], at: usize) -> Option<DialFields>
    requires { at ≤ length s.now }
    ensures { Reads dial_fields at s.now (option_map (λ r. Call.Dial r.peer.0 (view_pair r.pair) (view r.message) r.lease) result) }
{
    let mut cursor = Cursor::new(s, at);
    let fields = DialFields {
        peer: cursor.fixed()?,
        pair: cursor.pair()?,
        message: cursor.message()?,
        lease: cursor.u32()?,
    };
    cursor.end()?;
    Some(fields)
}

// 3 arrived: pair, which stays where it stands, from `from` on, message.
pub fn arrived_fields(s: &[u8], at: usize) -> Option<ArrivedFields>
    requires { at ≤ length s.now }
    ensures reads { Reads arrived_fields at s.now (option_map (λ r. Call.Arrived (pair_here (drop r.from s.now)) (span_of s.now r.message)) result) }
    ensures pair_in { IfSome result (λ r. PairIn s.now r.from) }
    ensures fit_span { IfSome result (λ r. FitSpan s.now r.message) }
{
    let mut cursor = Cursor::new(s, at);
    let fields = ArrivedFields {
        from: cursor.skip_pair()?,
        message: cursor.span()?,
    };
    cursor.end()?;
    Some(fields)
}

// What msg1 and replacement share: peer, pair, message, digest, epoch, msg2, lease.
#[inline(always)]
pub fn next_hello(cursor: &mut Cursor) -> Option<Hello>
    ensures took { Took hello cursor.old (option_map (hello_of cursor.old.rec.now) result) cursor.new }
    ensures fit_hello { IfSome result (λ h. FitHello cursor.old.rec.now h) }
{
    Some(Hello {
        peer: cursor.fixed()?,
        from: cursor.skip_pair()?,
        message: cursor.span()?,
        digest: cursor.fixed()?,
        epoch: cursor.u64()?,
        msg2: cursor.span()?,
        lease: cursor.u32()?,
    })
}

// 4 msg1: these, reachable flag.
pub fn msg1_fields(s: &[u8], at: usize) -> Option<Msg1Fields>
    requires { at ≤ length s.now }
    ensures reads { Reads msg1_fields at s.now (option_map (λ r. Call.Msg1 (hello_of s.now r.hello) r.reachable) result) }
    ensures fit_hello { IfSome result (λ r. FitHello s.now r.hello) }
{
    let mut cursor = Cursor::new(s, at);
    let fields = Msg1Fields {
        hello: next_hello(&mut cursor)?,
        reachable: cursor.flag()?,
    };
    cursor.end()?;
    Some(fields)
}

// 5 replacement: these.
pub fn replacement_fields(s: &[u8], at: usize) -> Option<ReplacementFields>
    requires { at ≤ length s.now }
    ensures reads { Reads replacement_fields at s.now (option_map (λ r. Call.Replacement (hello_of s.now r.hello)) result) }
    ensures fit_hello { IfSome result (λ r. FitHello s.now r.hello) }
{
    let mut cursor = Cursor::new(s, at);
    let fields = ReplacementFields {
        hello: next_hello(&mut cursor)?,
    };
    cursor.end()?;
    Some(fields)
}
