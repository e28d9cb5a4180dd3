// Of crate legs_entry, for those above.
pub use legs_entry::leg::{Answer, Leg, answer_leg, dial_leg};
