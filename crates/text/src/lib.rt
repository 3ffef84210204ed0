// What the programs write, as a text of bounded size.
#![tactic(auto)]

pub mod buffer;
pub mod reflist;
pub mod refshow;
