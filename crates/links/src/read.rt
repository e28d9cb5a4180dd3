// Of crate links_entry, for those above.
pub use links_entry::read::{
    find_link, get_link, in_use, indexed_at, link_count, no_at, outbound_at, paths_full, proven_at,
    released_at, setup_at, setup_is, uses_at,
};
