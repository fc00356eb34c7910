//! What the calls of controllers and participants do to a plain cluster beside its sessions, rows and
//! messages: passes, posts, what is read of the ideals, and what becomes of reset flags. And
//! whether two values are the same.
#![tactic(auto)]

mod messages;
mod passes;
mod reads;
mod same;
mod shown;

pub use messages::{message_from, settle_flags};
pub use passes::{begin, publish, raise_pass};
pub use reads::{ideals_over, read_ideals_over, reread_ideals};
pub use same::{Same, all_same};
pub use shown::{forget_shown, no_ideals, nothing_shown};
