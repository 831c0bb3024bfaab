// A bank of drives: the interface between the engine and what holds the bytes, and what it means.
// A bank's meaning is in specs/Meaning.antt; the methods here answer from it.
#![tactic(auto)]

mod absent;
mod address;
mod cause;
mod size;
mod source;
mod traits;

pub use address::Address;
pub use cause::Cause;
pub use size::sized;
pub use source::Source;
pub use traits::{Bank, Plain};

// The bytes of a sector.
pub const SECTOR: usize = 512;
