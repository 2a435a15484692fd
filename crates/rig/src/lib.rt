//! The rig: a device that guests share, slot by slot.
#![tactic(auto)]

mod after_slot;
mod call;
mod job;
mod jobs;
mod parts;
mod perform;
mod reply;
mod requests;
mod rig;
mod slots;
mod tables;
mod tally;
mod text;
mod work;

pub use call::Call;
pub use reply::{Answer, Reply, ReplyNumbers};
pub use rig::Rig;
pub use tally::Tally;
pub use text::AnswerLine;
