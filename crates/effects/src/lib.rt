// What a taken call does, store by store (document 01, "Steps"). For the engine's own use: each function asks for what a passed cause table gives.
#![tactic(auto)]

mod cells;
mod checkpoint;
mod format;
mod holders;
mod record;
mod recovery;
mod stores;

pub use checkpoint::checkpoint_step;
pub use format::format_step;
pub use holders::{lock_given_back, lock_taken};
pub use record::{Progress, conditioned, locked, placed, progressed, requesting, started};
pub use recovery::{recovery_step, restart};
pub use stores::{noted, store_next};
