// The language of the program's scripts: the drives and commands that the words of a line say.
#![tactic(auto)]

mod command;
mod cut;
mod drive;
mod words;

pub use command::{BankCommand, Command};
pub use drive::Drive;
pub use words::drive_number;
