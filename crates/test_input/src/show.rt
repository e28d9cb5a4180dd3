// The words of a line, in hexadecimal, each behind a space but for a line's first.
ghost use Rattle.node_addr.specs.Place.{PairIn};
ghost use Rattle.input_cursor.specs.Span.{FitSpan};

use input_cursor::Span;
use input_frame::Header;
use node_addr::place::load_wire_pair;
use node_addr::{LinkNo, Message, NodeAddr, Pair};

pub fn end_line() {
    io::write_all(1, &[b'\n']);
}

// The first word.
pub fn first(v: u8) {
    io::print_hex(1, v as u64, 2);
}

fn number(v: u64, width: usize) {
    io::write_all(1, &[b' ']);
    io::print_hex(1, v, width);
}

pub fn word(v: u64) {
    number(v, 16);
}

pub fn lease(v: u32) {
    number(v as u64, 8);
}

pub fn byte(v: u8) {
    number(v as u64, 2);
}

pub fn truth(v: bool) {
    number(v as u64, 2);
}

// No call.
pub fn nothing() {
    io::write_all(1, &[b'-']);
}

// Kind and clock of a call.
pub fn opening(h: Header) {
    first(h.kind);
    word(h.now);
}

fn digits(s: &[u8]) {
    for b in s {
        io::print_hex(1, *b as u64, 2);
    }
}

// Bytes, `-` for none.
pub fn run(s: &[u8]) {
    io::write_all(1, &[b' ']);
    if s.len() == 0 {
        io::write_all(1, &[b'-']);
    }
    digits(s);
}

pub fn peer(n: NodeAddr) {
    run(&n.0);
}

pub fn link(n: LinkNo) {
    word(n.0);
}

// Transport and address.
pub fn pair(p: Pair) {
    lease(p.transport.0);
    run(&p.addr.bytes[..p.addr.len]);
}

pub fn message(m: Message) {
    run(&m.bytes[..m.len]);
}

// A message that stands in a record.
pub fn span(s: &[u8], m: Span)
    requires { FitSpan s.now m }
{
    run(&s[m.at..m.at + m.len]);
}

// A pair that stands in a record.
pub fn spelt(s: &[u8], from: usize)
    requires { PairIn s.now from }
{
    pair(load_wire_pair(s, from));
}
