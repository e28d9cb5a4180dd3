// Numbers and runs of bytes written at a place of a lent slice; bytes cleared. A writer answers the place after what it wrote.
ghost use Rattle.std.specs.Prelude.{◌≡◌, [], ◌∷◌, ◌+◌, ◌%◌, ◌≤◌, ◌<◌, length, take, drop, replicate};
ghost use Rattle.rules.specs.Field.{digits};
ghost use Rattle.lib_laws.specs.Splice.{Wrote};

// One byte.
pub fn put_byte(s: &mut [u8], at: usize, v: u8) -> usize
    requires { at < length s.old }
    ensures { Wrote s.old at 1 (v ∷ []) s.new result }
{
    s[at] = v;
    at + 1
}

// The last n bytes of a number, the most significant first, byte by byte: of any width, those that are one store of the machine too.
fn put_few(s: &mut [u8], at: usize, v: u64, n: usize) -> usize
    requires { at + n ≤ length s.old }
    ensures { Wrote s.old at n (digits n v) s.new result }
{
    let mut w = v;
    for i in (0..n).rev() {
        s[at + i] = (w % 256) as u8;
        w /= 256;
    }
    at + n
}

// The last n bytes of a number, the most significant first.
pub fn put_be(s: &mut [u8], at: usize, v: u64, n: usize) -> usize
    requires { at + n ≤ length s.old }
    ensures { Wrote s.old at n (digits n v) s.new result }
{
    match n {
        8 => put(s, at, v.to_be_bytes()),
        4 => put(s, at, ((v % 4294967296) as u32).to_be_bytes()),
        2 => put(s, at, ((v % 65536) as u16).to_be_bytes()),
        _ => put_few(s, at, v, n),
    }
}

// n bytes of another slice, from a place there.
pub fn put_run(s: &mut [u8], at: usize, t: &[u8], from: usize, n: usize) -> usize
    requires n_in_bounds { at + n ≤ length s.old }
    requires n_in_bounds_2 { from + n ≤ length t.now }
    ensures { Wrote s.old at n (take n (drop from t.now)) s.new result }
{
    s[at..at + n].copy_from_slice(&t[from..from + n]);
    at + n
}

// N bytes.
pub fn put<const N: usize>(s: &mut [u8], at: usize, b: [u8; N]) -> usize
    requires { at + N ≤ length s.old }
    ensures { Wrote s.old at N b.entry s.new result }
{
    put_run(s, at, &b, 0, N)
}

// The first n of N bytes.
pub fn put_first<const N: usize>(s: &mut [u8], at: usize, b: [u8; N], n: usize) -> usize
    requires n_bound { n ≤ N }
    requires n_in_bounds { at + n ≤ length s.old }
    ensures { Wrote s.old at n (take n b.entry) s.new result }
{
    put_run(s, at, &b, 0, n)
}

// n zeros.
pub fn clear(s: &mut [u8], at: usize, n: usize) -> usize
    requires { at + n ≤ length s.old }
    ensures { Wrote s.old at n (replicate n 0) s.new result }
{
    s[at..at + n].fill(0);
    at + n
}
