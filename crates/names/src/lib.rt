// Names of references. The definitions are in specs/, their laws in proofs/.
#![tactic(auto)]

pub mod bytes;
pub mod find;
pub mod fullname;
pub mod name;
pub mod namespace;
pub mod partial;
pub mod validate;
