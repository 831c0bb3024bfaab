// One command done on a bank.
ghost use Rattle.std.specs.Prelude.{◌≡◌, IfOk, MatchResult};
ghost use Rattle.bank.specs.Meaning.{Stored};
ghost use Rattle.session.specs.Performed.{told, due, reached, carried};
ghost use Rattle.session.specs.Seed.{sown};
ghost use Rattle.script.specs.declared.command.BankCommand.TheVariants.{Get, Put};

use super::fnv::digest;
use super::outcome::Outcome;
use super::seed::sow;
use bank::{Address, Bank};
use script::BankCommand;
use std::alloc::{AllocError, Global};

// What a buffer holds before a read, so that it shows which bytes were read.
const BLANK: u8 = 0xaa;

pub fn perform<B: Bank>(
    heap: Global,
    bank: &mut B,
    command: BankCommand,
) -> Result<Outcome, AllocError>
    ensures answer { IfOk result (λ outcome. told outcome ≡ due (B.Bank.meaning bank.old) command) }
    ensures after { MatchResult result (λ _. Stored (B.Bank.meaning bank.old) (B.Bank.meaning bank.new) (reached (B.Bank.meaning bank.old) command) (carried command)) (λ _. bank.new ≡ bank.old) }
    ensures kept { B.Bank.stands bank.old → B.Bank.stands bank.new }
{
    // Which step is taken is the command's kind, and a match on it is plainer than a table of closures.
    match command {
        BankCommand::Count => Ok(Outcome::Counted {
            drives: bank.count(),
        }),
        BankCommand::Length { drive } => Ok(Outcome::Measured {
            sectors: bank.length(drive),
        }),
        BankCommand::Ends { address } => Ok(Outcome::Ended {
            read: bank.read_end(address),
            write: bank.write_cause(address),
        }),
        BankCommand::Get { address, size } => get(heap, bank, address, size),
        BankCommand::Put {
            address,
            seed,
            size,
        } => put(heap, bank, address, seed, size),
    }
}

fn get<B: Bank>(heap: Global, bank: &B, address: Address, size: u64) -> Result<Outcome, AllocError>
    ensures { IfOk result (λ outcome. told outcome ≡ due (B.Bank.meaning bank.now) (Get address size)) }
{
    let mut place = vec![in heap; BLANK; size as usize]?;
    let from = bank.read(address, &mut place);
    let digest = digest(&place);
    Ok(Outcome::Got { from, digest })
}

fn put<B: Bank>(
    heap: Global,
    bank: &mut B,
    address: Address,
    seed: u64,
    size: u64,
) -> Result<Outcome, AllocError>
    ensures answer { IfOk result (λ outcome. told outcome ≡ due (B.Bank.meaning bank.old) (Put address seed size)) }
    ensures after { MatchResult result (λ _. Stored (B.Bank.meaning bank.old) (B.Bank.meaning bank.new) (reached (B.Bank.meaning bank.old) (Put address seed size)) (sown seed size)) (λ _. bank.new ≡ bank.old) }
    ensures kept { B.Bank.stands bank.old → B.Bank.stands bank.new }
{
    let mut bytes = vec![in heap; 0u8; size as usize]?;
    sow(&mut bytes, seed);
    Ok(Outcome::Stored(bank.write(address, &bytes)))
}
