// Runs one script: its drives first, and then the commands that ask the bank which they make.
ghost use Rattle.std.specs.Prelude.{◌≡◌, ◌<◌, IfNone, IfOk, MatchOption, OnOk};
ghost use Rattle.lines.specs.Rest.{left};

use super::joined::joined;
use bank::{Bank, Plain};
use layout::{Eight, Layout};
use lines::{Fault, Line, Lines};
use script::{BankCommand, Command, Drive};
use session::{Outcome, Session, perform};
use std::alloc::AllocError;
use std::io;

// What ends a run before its time: a malformed line, or the world outside.
#[derive(Drop)]
pub enum Trouble {
    Malformed(Fault),
    Outside(io::Error),
}

impl From<Fault> for Trouble {
    fn from(fault: Fault) -> Trouble {
        Trouble::Malformed(fault)
    }
}

impl From<AllocError> for Trouble {
    fn from(_error: AllocError) -> Trouble {
        Trouble::Malformed(Fault::NoMemory)
    }
}

impl From<io::Error> for Trouble {
    fn from(error: io::Error) -> Trouble {
        Trouble::Outside(error)
    }
}

// One run of a script: its lines, as far as they are read, and what is told of them. How many lines are left changes with each
// call, so that it is said by each method and is no fact of the type.
#[derive(Drop)]
pub struct Run<'a> {
    pub lines: Lines<'a>,
    journal: Journal<'a>,
}

impl<'a> Run<'a> {
    pub fn new(rt: &'a HostRuntime, text: &'a [u8]) -> Run<'a>
        ensures rest { result.lines.rest.now ≡ text.now }
        ensures number { result.lines.number ≡ 0 }
    {
        Run {
            lines: Lines::new(text),
            journal: Journal {
                rt,
                session: Session::new(),
            },
        }
    }

    // Runs every line, unless trouble comes between.
    pub fn to_end(&mut self) -> Result<(), Trouble>
        ensures { OnOk result (left self.new.lines ≡ 0) }
    {
        self.on(&mut Layout::new())
    }

    // The layout is lent. With one of its own this was tried: the proof went through each place's drop at each way out, and did not close.
    fn on(&mut self, layout: &mut Layout) -> Result<(), Trouble>
        ensures { OnOk result (left self.new.lines ≡ 0) }
    {
        if let Some(first) = self.describe(layout)? {
            self.ask_eight(layout.slots(), first)?;
        }
        self.journal.sum_up()
    }

    // Eight banks of any kind, so that the proof has no drops of slots to go through.
    fn ask_eight<T: Plain + Drop>(
        &mut self,
        banks: Eight<T>,
        first: BankCommand,
    ) -> Result<(), Trouble>
        ensures { OnOk result (left self.new.lines ≡ 0) }
    {
        self.ask(&mut joined(banks), first)
    }

    // Takes in the drives. The first command that asks the bank is handed on.
    fn describe(&mut self, layout: &mut Layout) -> Result<Option<BankCommand>, Trouble>
        ensures { IfOk result (λ first. IfNone first (left self.new.lines ≡ 0)) }
    {
        while let Some(command) = self.next_command()? {
            match command {
                Command::Bank(command) => return Ok(Some(command)),
                Command::Drive(drive) => self.journal.attach(layout, drive)?,
            }
        }
        Ok(None)
    }

    // Has the bank answer a command and those behind it.
    fn ask<B: Bank>(&mut self, bank: &mut B, first: BankCommand) -> Result<(), Trouble>
        ensures { OnOk result (left self.new.lines ≡ 0) }
    {
        self.journal.answer(bank, first)?;
        while let Some(command) = self.next_command()? {
            match command {
                Command::Bank(command) => self.journal.answer(bank, command)?,
                Command::Drive(_) => return Err(Trouble::Malformed(Fault::LateDrive)),
            }
        }
        Ok(())
    }

    // The next command. Expectations on the way to it are held against the outcome before them.
    fn next_command(&mut self) -> Result<Option<Command>, Trouble>
        ensures { IfOk result (λ command. MatchOption command (left self.new.lines ≡ 0) (λ _. left self.new.lines < left self.old.lines)) }
    {
        // Not a `for` over `&mut self.lines`: tried, and behind it the proof doesn't know what is left.
        while let Some(bytes) = self.lines.next() {
            match Line::parse(bytes)? {
                Line::Skipped => {}
                Line::Expectation(text) => self.journal.compare(text)?,
                Line::Command(text) => {
                    return Ok(Some(Command::parse(self.journal.rt.alloc(), text)?));
                }
            }
        }
        Ok(None)
    }
}

// What a run tells of its commands, and what it remembers of them.
#[derive(Drop)]
struct Journal<'a> {
    rt: &'a HostRuntime,
    session: Session,
}

impl Journal<'_> {
    fn attach(&mut self, layout: &mut Layout, drive: Drive) -> Result<(), Trouble> {
        let drive = layout.add(self.rt.alloc(), drive)?;
        self.note(Outcome::Attached { drive })
    }

    fn answer<B: Bank>(&mut self, bank: &mut B, command: BankCommand) -> Result<(), Trouble> {
        let outcome = perform(self.rt.alloc(), bank, command)?;
        self.note(outcome)
    }

    fn note(&mut self, outcome: Outcome) -> Result<(), Trouble> {
        self.session.note(self.rt.alloc(), &outcome)?;
        println!(self.rt; "{outcome}")?;
        Ok(())
    }

    fn compare(&mut self, text: &str) -> Result<(), Trouble> {
        if !self.session.expect(text)? {
            println!(self.rt; "differs: {text}")?;
        }
        Ok(())
    }

    fn sum_up(&self) -> Result<(), Trouble> {
        println!(self.rt; "{}", self.session.tally)?;
        Ok(())
    }
}
