// A link record by value.
ghost use Rattle.links_entry.specs.View.{DecodesDir, DecodesProven};

use crate::layout::PATH_CAP;
use lib_list::ShortList;
use node_addr::{LinkNo, NodeAddr, Pair};

// Which end set the link up. In memory each variant of Dir and Proven is its number.
#[derive(Clone, Copy)]
pub enum Dir {
    Inbound,
    Outbound,
}

// A byte that is no direction.
#[derive(Clone, Copy)]
pub struct UnknownDir(pub u8);

// A path's state. A path that is probing keeps no connection open.
#[derive(Clone, Copy, Default)]
pub enum Proven {
    #[default]
    Live,
    Acked,
    Probing,
}

// A byte that is no state.
#[derive(Clone, Copy)]
pub struct UnknownProven(pub u8);

#[derive(Clone, Copy, Default)]
pub struct Path {
    pub pair: Pair,
    pub state: Proven,
}

// What holds a link: a handshake leg, or the peer behind it.
#[derive(Clone, Copy)]
pub enum Holder {
    Leg,
    Peer(NodeAddr),
}

#[derive(Clone, Copy)]
pub struct LinkRec {
    pub no: LinkNo,
    pub setup: Pair,
    pub dir: Dir,
    pub holder: Holder,
    pub released: bool,
    pub paths: ShortList<Path, PATH_CAP>,
}

impl TryFrom<u8> for Dir {
    type Error = UnknownDir;

    ghost try_from_gives = { DecodesDir };

    fn try_from(code: u8) -> Result<Self, UnknownDir> {
        match code {
            0 => Ok(Dir::Inbound),
            1 => Ok(Dir::Outbound),
            _ => Err(UnknownDir(code)),
        }
    }
}

impl TryFrom<u8> for Proven {
    type Error = UnknownProven;

    ghost try_from_gives = { DecodesProven };

    fn try_from(code: u8) -> Result<Self, UnknownProven> {
        match code {
            0 => Ok(Proven::Live),
            1 => Ok(Proven::Acked),
            2 => Ok(Proven::Probing),
            _ => Err(UnknownProven(code)),
        }
    }
}
