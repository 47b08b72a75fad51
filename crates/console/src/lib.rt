// A script's lines answered, or the page of the board that it leaves; reading and writing are crate `shell`'s.
#![tactic(auto)]

pub mod answers;
pub mod display;
mod input;
pub mod printing;
mod progress;
