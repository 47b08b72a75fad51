// One function for each test of the cause table of documents 01 and 02.
#![tactic(auto)]

pub mod holders;
pub mod limits;
pub mod marks;
pub mod phases;
pub mod record;
pub mod rows;
mod workers;
