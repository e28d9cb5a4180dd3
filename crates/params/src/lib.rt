// The settings: their values by default, and which are within range.
#![tactic(auto)]

pub mod head;
pub mod layout;
pub mod time;

ghost use Rattle.std.specs.Prelude.{◌≡◌, not};
ghost use Rattle.rules.specs.Time.{default as defaults, out_of_range};
ghost use Rattle.params.specs.View.{view_params};

use crate::layout::{COUNTED_MOST, REPLAYS_MOST};

// Spans are nanoseconds.
#[derive(Clone, Copy)]
pub struct Params {
    pub unheard: u64,
    pub interval: u64,
    pub replays: u8,
    pub silent: u32,
    pub silentbase: u64,
    pub silentcap: u64,
    pub horizon: u64,
    pub counted: u8,
    pub handshake: u64,
    pub resend: u64,
    pub resends: u32,
    pub pending: u64,
}

impl Default for Params {
    fn default() -> Self
        ensures { view_params result ≡ defaults }
    {
        Params {
            unheard: 1000000000,
            interval: 15000000000,
            replays: 8,
            silent: 3,
            silentbase: 30000000000,
            silentcap: 600000000000,
            horizon: 600000000000,
            counted: 8,
            handshake: 30000000000,
            resend: 1000000000,
            resends: 5,
            pending: 1000,
        }
    }
}

// Whether refusal 1 does not hold: counted 1 to 8, replays at most 8.
pub fn in_range(p: Params) -> bool
    ensures { not result ≡ out_of_range (view_params p) }
{
    p.counted != 0 && p.counted <= COUNTED_MOST && p.replays <= REPLAYS_MOST
}
