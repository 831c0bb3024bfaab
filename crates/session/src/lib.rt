// What a script's commands do on a bank, how their outcomes are told, and what a run remembers of them.
#![tactic(auto)]

mod deeds;
mod ends;
mod fnv;
mod hex;
mod outcome;
mod seed;
mod session;
mod tally;

pub use deeds::perform;
pub use fnv::digest;
pub use hex::Hex;
pub use outcome::Outcome;
pub use seed::sow;
pub use session::Session;
pub use tally::{Score, Tally};
