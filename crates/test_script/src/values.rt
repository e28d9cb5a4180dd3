// Values that are told apart by a number, of which the last byte counts; and settings by small numbers.
ghost use Rattle.std.specs.Prelude.{◌≡◌, ◌%◌, [], ◌∷◌, replicate};
ghost use Rattle.node_addr.specs.View.{view_pair};
ghost use Rattle.node_addr.specs.Padded.{view};
ghost use Rattle.params.specs.View.{view_params};
ghost use Rattle.test_script.specs.Chosen.{chosen, pair_of};

use node_addr::{Addr, Digest, Fixed, Message, NodeAddr, Pair, TransportId};
use params::Params;

pub fn byte(v: u64) -> u8
    ensures { result ≡ v % 256 }
{
    (v % 256) as u8
}

pub fn node(v: u64) -> NodeAddr
    ensures { result.0 ≡ replicate 16 (v % 256) }
{
    Fixed([byte(v); 16])
}

pub fn digest(v: u64) -> Digest
    ensures { result.0 ≡ replicate 32 (v % 256) }
{
    Fixed([byte(v); 32])
}

// An address of one byte.
pub fn pair(transport: u64, v: u64) -> Pair
    ensures { view_pair result ≡ pair_of transport v }
{
    Pair {
        transport: TransportId((transport % 4294967296) as u32),
        addr: Addr::load(&[byte(v)], 0, 1),
    }
}

// A message of one byte.
pub fn message(v: u64) -> Message
    ensures { view result ≡ (v % 256) ∷ [] }
{
    Message::load(&[byte(v)], 0, 1)
}

pub fn settings() -> Params
    ensures { view_params result ≡ chosen }
{
    Params {
        unheard: 10,
        interval: 100,
        replays: 2,
        silent: 2,
        silentbase: 30,
        silentcap: 100,
        horizon: 500,
        counted: 2,
        handshake: 100,
        resend: 10,
        resends: 3,
        pending: 1000,
    }
}
