// The kinds of outputs: each is a byte, `kind as u8`.
#[derive(Clone, Copy, PartialEq, Eq)]
pub enum Kind {
    Done = 0,
    Opened = 1,
    Answer = 2,
    Resend = 3,
    Rekey = 4,
    Install = 5,
    Reset = 6,
    Remove = 7,
    Retire = 8,
    Release = 9,
    Close = 10,
    Free = 11,
    Retry = 12,
    Reject = 13,
    Wake = 14,
}
