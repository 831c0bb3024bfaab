// Two kinds of drives, each a plain bank of its own: bytes of the caller's, and a drive that can only be read.
#![tactic(auto)]

mod memory;
mod rom;
mod single;

pub use memory::Memory;
pub use rom::Rom;
