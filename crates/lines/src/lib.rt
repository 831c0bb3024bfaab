// A script's text: its lines, their kinds, its numbers, and what is said of a malformed line.
#![tactic(auto)]

mod decimal;
mod fault;
mod line;
mod text;

pub use decimal::number;
pub use fault::{Fault, Part};
pub use line::Line;
pub use text::Lines;
