// Numbers and runs of bytes read at a place of a lent slice.
ghost use Rattle.std.specs.Prelude.{◌≡◌, ◌++◌, ◌+◌, ◌-◌, ◌^◌, ◌≤◌, ◌<◌, length, take, drop, get_or, replicate};
ghost use Rattle.rules.specs.Field.{more};

// The byte at a place.
pub fn get_byte(s: &[u8], at: usize) -> u8
    requires { at < length s.now }
    ensures { result ≡ get_or s.now at 0 }
{
    s[at]
}

// The number of four bytes, the most significant first.
fn get_4(s: &[u8], at: usize) -> u64
    requires { at + 4 ≤ length s.now }
    ensures value { result ≡ more 0 (take 4 (drop at s.now)) }
    ensures upper_bound { result < 256 ^ 4 }
{
    u32::from_be_bytes(take(s, at)) as u64
}

// The number of eight bytes.
pub fn get_8(s: &[u8], at: usize) -> u64
    requires { at + 8 ≤ length s.now }
    ensures value { result ≡ more 0 (take 8 (drop at s.now)) }
    ensures upper_bound { result < 256 ^ 8 }
{
    u64::from_be_bytes(take(s, at))
}

// The number of n bytes, byte by byte: of any width, those that are one load of the machine too.
fn get_few(s: &[u8], at: usize, n: usize) -> u64
    requires n_bound { n ≤ 8 }
    requires n_in_bounds { at + n ≤ length s.now }
    ensures value { result ≡ more 0 (take n (drop at s.now)) }
    ensures upper_bound { result < 256 ^ n }
{
    let mut v: u64 = 0;
    for i in 0..n {
        v = v * 256 + s[at + i] as u64;
    }
    v
}

// The number of n bytes, the most significant first.
pub fn get_be(s: &[u8], at: usize, n: usize) -> u64
    requires n_bound { n ≤ 8 }
    requires n_in_bounds { at + n ≤ length s.now }
    ensures value { result ≡ more 0 (take n (drop at s.now)) }
    ensures upper_bound { result < 256 ^ n }
{
    if n == 8 {
        return get_8(s, at);
    }
    if n == 4 {
        return get_4(s, at);
    }
    get_few(s, at, n)
}

// The N bytes at a place.
pub fn take<const N: usize>(s: &[u8], at: usize) -> [u8; N]
    requires { at + N ≤ length s.now }
    ensures { result ≡ take N (drop at s.now) }
{
    take_first(s, at, N)
}

// The first n of N bytes from a place; the others are zeros.
pub fn take_first<const N: usize>(s: &[u8], at: usize, n: usize) -> [u8; N]
    requires n_bound { n ≤ N }
    requires n_in_bounds { at + n ≤ length s.now }
    ensures { result ≡ take n (drop at s.now) ++ replicate (N - n) 0 }
{
    let mut b = [0u8; N];
    b[..n].copy_from_slice(&s[at..at + n]);
    b
}
