// The connections to close, beside what crate links_entry has of a link by value.
use lib_list::ShortList;
use links_entry::layout::ADDRESS_CAP;
pub use links_entry::record::{Dir, Holder, LinkRec, Path, Proven};
use node_addr::Pair;

// The connections to close, in order.
pub type Closes = ShortList<Pair, ADDRESS_CAP>;
