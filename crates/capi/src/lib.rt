// What Rust or C may call: every call answers a number, and what it finds it writes at fixed places of an output that is lent to it.
// Kept: every function's number is the C interface's, which has no Result and no Option.
#![tactic(auto)]

pub mod layout;
pub mod listing;
pub mod report;
pub mod search;
pub mod validate;
