// Spans and deadlines in nanoseconds.
ghost use Rattle.std.specs.Prelude.{◌≡◌, ◌-◌, ◌<◌};
ghost use Rattle.rules.specs.Base.{option};
ghost use Rattle.rules.specs.Std.{from_nanos, duration_max, saturating_since, saturating_add, checked_shl, u32_max};
ghost use Rattle.rules.specs.Time as rule;
ghost use Rattle.params.specs.Later.{power};

// The furthest that a deadline reaches: 100 years.
pub const CEILING: u64 = 3153600000000000000;

// Below which exponent a factor is a power of two.
const FACTOR_BITS: u32 = 32;

// One more, while it fits.
pub fn one_more(n: u32) -> u32
    ensures { result ≡ saturating_add n 1 }
{
    n.saturating_add(1)
}

// 1 shifted left by the exponent, and 2^32 - 1 from 32 on.
pub fn factor(exponent: u32) -> u32
    ensures value { result ≡ option (checked_shl 1 exponent) u32_max (λ f. f) }
    ensures value_2 { result ≡ power exponent }
    ensures result_nonzero { 0 < result }
{
    if exponent < FACTOR_BITS {
        return 1u32 << exponent;
    }
    u32::MAX
}

// The base times the factor, cut to the cap.
pub fn backoff(exponent: u32, base: u64, cap: u64) -> u64
    ensures { from_nanos result ≡ rule.backoff exponent (from_nanos base) (from_nanos cap) }
{
    let f = factor(exponent) as u64;
    base.saturating_mul(f).min(cap)
}

// The reading after a span of at most the ceiling, and the last reading where that sum does not fit.
pub fn deadline(now: u64, d: u64) -> u64
    ensures { result ≡ rule.deadline now (from_nanos d) }
{
    now.saturating_add(d.min(CEILING))
}

// When a message is sent again.
pub fn resend_at(now: u64, exponent: u32, base: u64) -> u64
    ensures { result ≡ rule.deadline now (rule.backoff exponent (from_nanos base) duration_max) }
{
    let step = backoff(exponent, base, CEILING);
    deadline(now, step)
}

// The span from a reading to now, 0 where the reading is later.
pub fn age(now: u64, was: u64) -> u64
    ensures result_value { from_nanos result ≡ saturating_since now was }
    ensures value { result ≡ now - was }
{
    now.saturating_sub(was)
}

// Whether a reading is younger than a span.
pub fn younger(span: u64, now: u64, was: u64) -> bool
    ensures { result ≡ rule.younger span now was }
{
    age(now, was) < span
}
