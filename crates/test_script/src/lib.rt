// What the programs share that run a module on chosen values: the steps of a script, values told apart by a number, the words of an answer.
// A step is a line: a word, of which the first letter counts, and up to five decimal numbers, each behind one space; a number that is not there is 0, and what follows them is not read.
// A program writes each line as it is, and behind it the words of its answer.
#![tactic(auto)]

pub mod show;
pub mod values;

ghost use Rattle.std.specs.Prelude.{◌≡◌, ◌+◌, ◌<◌, ◌≤◌, length, nat_lt};
ghost use Rattle.test_script.specs.Step.{digit, with_digit, numeral, run, Runs, Reads, Steps, argument, next_word, word_start};

#[derive(Clone, Copy)]
pub struct Step {
    pub word: u8,
    pub a: u64,
    pub b: u64,
    pub c: u64,
    pub d: u64,
    pub e: u64,
    pub at: usize,
}

#[derive(Clone, Copy)]
struct Number {
    value: u64,
    at: usize,
}

// A number with one more digit, the bits past 64 cut.
fn with_digit(v: u64, b: u8) -> u64
    ensures { result ≡ with_digit v b }
{
    v.wrapping_mul(10).wrapping_add(u64::from(b % 16))
}

// What the digits at the front spell.
fn numeral(s: &[u8]) -> u64
    ensures { result ≡ numeral s.now }
{
    s.iter()
        .take_while(|b| b.is_ascii_digit())
        .fold(0, |v, b| with_digit(v, *b))
}

// How many digits are at the front.
fn digit_count(s: &[u8]) -> usize
    ensures { result ≡ run digit s.now }
{
    s.iter().take_while(|b| b.is_ascii_digit()).count()
}

// The number behind a space, 0 where there is none.
fn argument(s: &[u8], at: usize) -> Number
    requires { at ≤ length s.now }
    ensures { Reads argument s.now at result.value result.at }
{
    if at < s.len() && s[at] == b' ' {
        let rest = &s[at + 1..];
        return Number {
            value: numeral(rest),
            at: at + 1 + digit_count(rest),
        };
    }
    Number { value: 0, at }
}

// How many bytes at the front are above `last`.
fn run(s: &[u8], last: u8) -> usize
    ensures { result ≡ run (nat_lt last) s.now }
{
    s.iter().take_while(|b| last < **b).count()
}

// The first byte from a place on that is at most `last`, or the end.
fn until(s: &[u8], at: usize, last: u8) -> usize
    requires { at ≤ length s.now }
    ensures { Runs (nat_lt last) s.now at result }
{
    at + run(&s[at..], last)
}

// The step of the line that begins at a place, which is written. The next line is at `at`.
pub fn next_step(s: &[u8], at: usize) -> Step
    requires { at < length s.now }
    ensures steps { Steps s.now at result.word result.a result.b result.c result.d result.e result.at }
    ensures at_lt_at { at < result.at }
{
    let word = s[at];
    let a = argument(s, until(s, at, b' '));
    let b = argument(s, a.at);
    let c = argument(s, b.at);
    let d = argument(s, c.at);
    let e = argument(s, d.at);
    let end = until(s, e.at, b'\n');
    io::write_all(1, &s[at..end]);
    Step {
        word,
        a: a.value,
        b: b.value,
        c: c.value,
        d: d.value,
        e: e.value,
        at: end + 1,
    }
}

// Where the next word begins, the end where there is none.
fn next_word(text: &[u8], at: usize) -> usize
    ensures { result ≡ next_word text.now at }
{
    if at < text.len() {
        until(text, at, b' ') + 1
    } else {
        at
    }
}

// Where the k-th word of a text begins.
fn word_start(text: &[u8], k: usize) -> usize
    ensures { result ≡ word_start text.now k }
{
    let mut at = 0;
    for _i in 0..k {
        at = next_word(text, at);
    }
    at
}

// The k-th word of a text, as a word of an answer.
pub fn choice(text: &[u8], k: usize) {
    let at = word_start(text, k);
    if at < text.len() {
        let end = until(text, at, b' ');
        io::write_all(1, &[b' ']);
        io::write_all(1, &text[at..end]);
    }
}
