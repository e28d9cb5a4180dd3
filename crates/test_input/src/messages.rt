// The calls that carry a message: kind, clock and fields, where they are well formed.
ghost use Rattle.std.specs.Prelude.{◌≤◌, length};
ghost use Rattle.input_call.specs.Hello.{FitHello};

use crate::show::{lease, message, opening, pair, peer, run, span, spelt, truth, word};
use input_call::handshake::{arrived_fields, dial_fields, msg1_fields, replacement_fields};
use input_call::hello::Hello;
use input_frame::Header;

pub fn dial(s: &[u8], h: Header) -> Option<()>
    requires { h.at ≤ length s.now }
{
    let f = dial_fields(s, h.at)?;
    opening(h);
    peer(f.peer);
    pair(f.pair);
    message(f.message);
    lease(f.lease);
    Some(())
}

pub fn arrived(s: &[u8], h: Header) -> Option<()>
    requires { h.at ≤ length s.now }
{
    let f = arrived_fields(s, h.at)?;
    opening(h);
    spelt(s, f.from);
    span(s, f.message);
    Some(())
}

fn hello(s: &[u8], h: Hello)
    requires { FitHello s.now h }
{
    peer(h.peer);
    spelt(s, h.from);
    span(s, h.message);
    run(&h.digest.0);
    word(h.epoch);
    span(s, h.msg2);
    lease(h.lease);
}

pub fn msg1(s: &[u8], h: Header) -> Option<()>
    requires { h.at ≤ length s.now }
{
    let f = msg1_fields(s, h.at)?;
    opening(h);
    hello(s, f.hello);
    truth(f.reachable);
    Some(())
}

pub fn replacement(s: &[u8], h: Header) -> Option<()>
    requires { h.at ≤ length s.now }
{
    let f = replacement_fields(s, h.at)?;
    opening(h);
    hello(s, f.hello);
    Some(())
}
