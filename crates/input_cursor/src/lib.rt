// A record is read field by field, from a place on. Each reader answers the field that stands there and passes it, or None where the record has no such field there, and then it goes back to 0, so that the bytes determine the place too.
// What reads the field is handed the rest of the record from the field's first byte.
#![tactic(auto)]

ghost use Rattle.std.specs.Prelude.{◌≡◌, ◌≤◌, length};
ghost use Rattle.node_addr.specs.Padded.{view};
ghost use Rattle.input_cursor.specs.Span.{span_of, FitSpan};

use lib_bytes::layout::{U16, U32, U64};
use lib_bytes::read::{get_be, get_byte};
use node_addr::layout::{ADDR_CAP, MESSAGE_CAP, PAIR_ADDR, PAIR_LEN};
use node_addr::place::{load_fixed, load_wire_pair};
use node_addr::{Fixed, Message, Pair};

// A message where it stands in a record: its first byte, and how many.
#[derive(Clone, Copy)]
pub struct Span {
    pub at: usize,
    pub len: usize,
}

// A message that stands in a record, by value.
pub fn message_of(s: &[u8], m: Span) -> Message
    requires { FitSpan s.now m }
    ensures { view result ≡ span_of s.now m }
{
    Message::load(&s[m.at..], 0, m.len)
}

// What is left of a record stands from `at` on.
#[derive(Drop)]
pub struct Cursor<'a> {
    pub rec: &'a [u8],
    pub at: usize,
    pub ghost within: { at ≤ length rec.now },
}

impl<'a> Cursor<'a> {
    ghost use Rattle.std.specs.Prelude.{◌^◌, ◌<◌, drop, MatchOption, IfSome, option_map};
    ghost use Rattle.rules.specs.Field.{number, bytes, flag, pair, message};
    ghost use Rattle.node_addr.specs.View.{view_pair};
    ghost use Rattle.node_addr.specs.Place.{pair_here, PairIn};
    ghost use Rattle.input_cursor.specs.Took.{below, Took, Skipped, Stands};

    pub fn new(rec: &'a [u8], at: usize) -> Self
        requires { at ≤ length rec.now }
        ensures { Stands rec.now at result }
    {
        Cursor { rec, at }
    }

    // Where n bytes begin.
    fn skip(&mut self, n: usize) -> Option<usize>
        ensures { Skipped n self.old result self.new }
    {
        if self.rec.len() - self.at < n {
            self.at = 0;
            return None;
        }
        let at = self.at;
        self.at += n;
        Some(at)
    }

    // A number of n bytes.
    fn number(&mut self, n: usize) -> Option<u64>
        requires { n ≤ 8 }
        ensures took { Took (number n) self.old result self.new }
        ensures upper_bound { IfSome result (λ v. v < 256 ^ n) }
    {
        let at = self.skip(n)?;
        Some(get_be(&self.rec[at..], 0, n))
    }

    // A node address, a digest.
    pub fn fixed<const N: usize>(&mut self) -> Option<Fixed<N>>
        ensures { Took (bytes N) self.old (option_map (λ x. x.0) result) self.new }
    {
        let at = self.skip(N)?;
        Some(load_fixed(&self.rec[at..], 0))
    }

    // A clock, a link, an epoch, a span of time.
    pub fn u64(&mut self) -> Option<u64>
        ensures { Took (number 8) self.old result self.new }
    {
        self.number(U64)
    }

    // A lease, a count.
    pub fn u32(&mut self) -> Option<u32>
        ensures { Took (number 4) self.old result self.new }
    {
        Some(self.number(U32)? as u32)
    }

    pub fn byte(&mut self) -> Option<u8>
        ensures { Took (number 1) self.old result self.new }
    {
        let at = self.skip(1)?;
        Some(get_byte(&self.rec[at..], 0))
    }

    // A byte below k: a code of k meanings.
    pub fn code(&mut self, k: u8) -> Option<u8>
        ensures took { Took (below k) self.old result self.new }
        ensures value_lt_k { IfSome result (λ v. v < k) }
    {
        let v = self.byte()?;
        if k <= v {
            self.at = 0;
            return None;
        }
        Some(v)
    }

    // 0 or 1.
    pub fn flag(&mut self) -> Option<bool>
        ensures { Took flag self.old result self.new }
    {
        Some(self.code(2)? == 1)
    }

    // Where a pair begins, which stays where it stands: a transport, a length of at most 48, and an address of so many bytes.
    pub fn skip_pair(&mut self) -> Option<usize>
        ensures took { Took pair self.old (option_map (λ i. pair_here (drop i self.old.rec.now)) result) self.new }
        ensures pair_in { IfSome result (λ i. PairIn self.old.rec.now i) }
        ensures stands { IfSome result (λ i. i ≡ self.old.at) }
    {
        let at = self.skip(PAIR_ADDR)?;
        let n = get_byte(&self.rec[at..], PAIR_LEN) as usize;
        if ADDR_CAP < n {
            self.at = 0;
            return None;
        }
        self.skip(n)?;
        Some(at)
    }

    // The same, by value.
    pub fn pair(&mut self) -> Option<Pair>
        ensures { Took pair self.old (option_map view_pair result) self.new }
    {
        let at = self.skip_pair()?;
        Some(load_wire_pair(&self.rec[at..], 0))
    }

    // A message, which stays where it stands: a length of at most 128, and so many bytes. Inlined, so that the place is no memory; as it is in `next_hello`.
    #[inline(always)]
    pub fn span(&mut self) -> Option<Span>
        ensures took { Took message self.old (option_map (span_of self.old.rec.now) result) self.new }
        ensures fit_span { IfSome result (λ m. FitSpan self.old.rec.now m) }
    {
        let len = self.number(U16)? as usize;
        if MESSAGE_CAP < len {
            self.at = 0;
            return None;
        }
        let at = self.skip(len)?;
        Some(Span { at, len })
    }

    // The same, by value.
    pub fn message(&mut self) -> Option<Message>
        ensures { Took message self.old (option_map view result) self.new }
    {
        let m = self.span()?;
        Some(message_of(self.rec, m))
    }

    // Nothing is left over.
    pub fn end(&self) -> Option<()>
        ensures { MatchOption result (self.now.at < length self.now.rec.now) (λ u. self.now.at ≡ length self.now.rec.now) }
    {
        if self.at < self.rec.len() {
            return None;
        }
        Some(())
    }
}
