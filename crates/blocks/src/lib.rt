// Blocks and loose contents. The definitions are in specs/, their laws in proofs/.
#![tactic(auto)]

pub mod block;
pub mod decode;
pub mod fitness;
pub mod parse;
pub mod snapshot;
