// The commands of a script, parsed from the words of a line.
ghost use Rattle.std.specs.Prelude.{◌≡◌, ℕ, List, ◌∷◌};
ghost use Rattle.script.specs.Words.{unread};
ghost use Rattle.script.specs.Commands.{count_said, length_said, ends_said, get_said, put_said, bank_said};
ghost use Rattle.script.specs.Drives.{Read};
ghost use Rattle.script.specs.Parsed.{told_command, command_said, Parsed};

use super::cut::{all_solid, split};
use super::drive::Drive;
use super::words::Words;
use bank::Address;
use lines::{Fault, Part};
use std::alloc::Global;

#[derive(Clone, Copy, PartialEq, Eq, Debug)]
pub enum BankCommand {
    Count,
    Length {
        drive: u8,
    },
    Ends {
        address: Address,
    },
    Get {
        address: Address,
        size: u64,
    },
    Put {
        address: Address,
        seed: u64,
        size: u64,
    },
}

#[derive(Drop)]
pub enum Command {
    Drive(Drive),
    Bank(BankCommand),
}

impl Command {
    pub fn parse(heap: Global, text: &str) -> Result<Command, Fault>
        ensures { Parsed text.now result }
    {
        let words = split(heap, text)?;
        all_solid(&words)?;
        Command::of_words(heap, Words { left: &words })
    }

    fn of_words(heap: Global, mut words: Words) -> Result<Command, Fault>
        ensures { Read told_command (command_said (unread words.entry)) result }
    {
        // A match is the plain form of a choice by name; a table would have to hold functions of different results.
        match words.word(Part::Command)? {
            "memory" => Ok(Command::Drive(Drive::memory(heap, words)?)),
            "rom" => Ok(Command::Drive(Drive::rom(words)?)),
            name => Ok(Command::Bank(BankCommand::parse(name, words)?)),
        }
    }
}

impl BankCommand {
    // A command is known by its name, and a match is the plain form of a choice by name: a table of functions would be searched by hand.
    fn parse(name: &str, words: Words) -> Result<BankCommand, Fault>
        ensures { result ≡ bank_said (name.now ∷ unread words.entry) }
    {
        match name {
            "count" => count(words),
            "length" => length(words),
            "ends" => ends(words),
            "get" => get(words),
            "put" => put(words),
            _ => Err(Fault::UnknownCommand),
        }
    }
}

// What each command says is promised for any name: the definitions count places from the name, which is read before.
fn count(mut words: Words) -> Result<BankCommand, Fault>
    ensures { (name : List ℕ) → result ≡ count_said (name ∷ unread words.entry) }
{
    words.bank()?;
    words.end()?;
    Ok(BankCommand::Count)
}

fn length(mut words: Words) -> Result<BankCommand, Fault>
    ensures { (name : List ℕ) → result ≡ length_said (name ∷ unread words.entry) }
{
    let drive = words.drive()?;
    words.end()?;
    Ok(BankCommand::Length { drive })
}

fn ends(mut words: Words) -> Result<BankCommand, Fault>
    ensures { (name : List ℕ) → result ≡ ends_said (name ∷ unread words.entry) }
{
    let address = words.address()?;
    words.end()?;
    Ok(BankCommand::Ends { address })
}

#[tactic(auto, using(crate::proofs::Places::get_by))]
fn get(mut words: Words) -> Result<BankCommand, Fault>
    ensures { (name : List ℕ) → result ≡ get_said (name ∷ unread words.entry) }
{
    let address = words.address()?;
    let size = words.size()?;
    Ok(BankCommand::Get { address, size })
}

#[tactic(auto, using(crate::proofs::Places::put_by))]
fn put(mut words: Words) -> Result<BankCommand, Fault>
    ensures { (name : List ℕ) → result ≡ put_said (name ∷ unread words.entry) }
{
    let address = words.address()?;
    let seed = words.number(Part::Seed)?;
    let size = words.size()?;
    Ok(BankCommand::Put {
        address,
        seed,
        size,
    })
}
