// The drives that a script describes, each in a place of its own, and those places as slots of a bank.
#![tactic(auto)]

mod eight;
mod layout;
mod place;
mod slot;

pub use eight::Eight;
pub use layout::Layout;
pub use slot::Slot;
