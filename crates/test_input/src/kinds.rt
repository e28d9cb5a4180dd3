// The line of a call, and the fields of the calls that carry no message.
ghost use Rattle.std.specs.Prelude.{◌≤◌, length};

use crate::messages::{arrived, dial, msg1, replacement};
use crate::show::{byte, end_line, link, nothing, opening, pair, peer, spelt, truth, word};
use input_call::event::{
    heard_fields, link_fields, msg2_fields, no_fields, path_fields, release_fields, remove_fields,
    restarted_fields,
};
use input_frame::kind::Kind;
use input_frame::{Header, read_header};

// Abandon, sent, unsent.
fn link_call(s: &[u8], h: Header) -> Option<()>
    requires { h.at ≤ length s.now }
{
    let f = link_fields(s, h.at)?;
    opening(h);
    link(f.link);
    Some(())
}

fn msg2(s: &[u8], h: Header) -> Option<()>
    requires { h.at ≤ length s.now }
{
    let f = msg2_fields(s, h.at)?;
    opening(h);
    link(f.link);
    word(f.epoch);
    pair(f.pair);
    Some(())
}

fn restarted(s: &[u8], h: Header) -> Option<()>
    requires { h.at ≤ length s.now }
{
    let f = restarted_fields(s, h.at)?;
    opening(h);
    peer(f.peer);
    word(f.epoch);
    Some(())
}

fn heard(s: &[u8], h: Header) -> Option<()>
    requires { h.at ≤ length s.now }
{
    let f = heard_fields(s, h.at)?;
    opening(h);
    peer(f.peer);
    spelt(s, f.from);
    Some(())
}

fn remove(s: &[u8], h: Header) -> Option<()>
    requires { h.at ≤ length s.now }
{
    let f = remove_fields(s, h.at)?;
    opening(h);
    peer(f.peer);
    byte(f.why);
    Some(())
}

fn path(s: &[u8], h: Header) -> Option<()>
    requires { h.at ≤ length s.now }
{
    let f = path_fields(s, h.at)?;
    opening(h);
    link(f.link);
    pair(f.pair);
    byte(f.state);
    Some(())
}

fn release(s: &[u8], h: Header) -> Option<()>
    requires { h.at ≤ length s.now }
{
    let f = release_fields(s, h.at)?;
    opening(h);
    link(f.link);
    pair(f.pair);
    truth(f.keep);
    Some(())
}

// Poll, close, wake.
fn bare(s: &[u8], h: Header) -> Option<()>
    requires { h.at ≤ length s.now }
{
    no_fields(s, h.at)?;
    opening(h);
    Some(())
}

// Kind, clock and the kind's fields, if it is a call.
fn call_words(s: &[u8]) -> Option<()> {
    let h = read_header(s)?;
    match Kind::try_from(h.kind).ok()? {
        Kind::Dial => dial(s, h),
        Kind::Abandon | Kind::Sent | Kind::Unsent => link_call(s, h),
        Kind::Arrived => arrived(s, h),
        Kind::Msg1 => msg1(s, h),
        Kind::Replacement => replacement(s, h),
        Kind::Msg2 => msg2(s, h),
        Kind::Restarted => restarted(s, h),
        Kind::Heard => heard(s, h),
        Kind::Remove => remove(s, h),
        Kind::Poll | Kind::Close | Kind::Wake => bare(s, h),
        Kind::Path => path(s, h),
        Kind::Release => release(s, h),
        Kind::New => None,
    }
}

// These, `-` if it is no call.
pub fn call_line(s: &[u8]) {
    if call_words(s).is_none() {
        nothing();
    }
    end_line();
}
