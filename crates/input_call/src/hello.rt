// What msg1 and replacement bring, as it was read.
use input_cursor::Span;
use node_addr::{Digest, NodeAddr};

// The pair, from `from` on, and the messages stand in the record.
#[derive(Clone, Copy)]
pub struct Hello {
    pub peer: NodeAddr,
    pub from: usize,
    pub message: Span,
    pub digest: Digest,
    pub epoch: u64,
    pub msg2: Span,
    pub lease: u32,
}
