// Why a call, or a new table, is refused; the number of each, which is what callers in C see, is `r as u8`.
#![tactic(auto)]

#[derive(Clone, Copy, PartialEq, Eq)]
pub enum Refusal {
    /// new: counted 0 or above 8, or replays above 8.
    Settings = 1,
    /// A call whose buffer is under 10,240 bytes.
    Buffer = 2,
    /// Wrong length, version, kind or code; a field over its limit; bytes missing or left over; new as a call, a call as new.
    Record = 3,
    /// dial, msg1, replacement: the next link number is 2^64 - 1.
    Numbers = 4,
    /// 32 links are live, and the call is a dial, or a msg1 or replacement that passed admission for a peer not held.
    Links = 5,
    /// The calls of `Links`: the peer has no place, and 32 peers have one.
    Names = 6,
    /// path: a live link, a new pair, four paths already.
    Paths = 7,
}
