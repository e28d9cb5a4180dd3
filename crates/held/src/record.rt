// A held peer by value.
use node_addr::{Digest, LinkNo, NodeAddr, Pair};

// `last`: when the last frame of its session was heard; `setup`: the digest of the msg1 that was answered.
#[derive(Clone, Copy)]
pub struct Held {
    pub peer: NodeAddr,
    pub link: LinkNo,
    pub epoch: u64,
    pub installed: u64,
    pub heard: bool,
    pub last: Option<u64>,
    pub setup: Option<Digest>,
    pub current: Pair,
}
