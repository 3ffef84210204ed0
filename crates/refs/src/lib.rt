// Search, following and listing. The definitions are in specs/, their laws in proofs/.
#![tactic(auto)]

pub mod check;
pub mod find;
mod fit;
pub mod overlay_iter;
pub mod packed;
pub mod raw;
pub mod raw_ext;
