// Of crate legs_entry, for those above.
pub use legs_entry::at::{
    answer_sent_at, answers_at, deadline_at, digest_at, epoch_at, lease_at, link_at, msg1_len_at,
    msg2_len_at, next_at, peer_at, replaces_at, stored_at,
};
