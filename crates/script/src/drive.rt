// The drives that a script describes before its other commands.
ghost use Rattle.std.specs.Prelude.{◌≡◌, ℕ, List, ◌∷◌, vec_items, codes, position};
ghost use Rattle.script.specs.Drives.{Read, told_drive, numbers, marked_in, lists_in, memory_said, rom_said};
ghost use Rattle.std.specs.Str.{bytes_eq};
ghost use Rattle.lines.specs.Texts.{texts};
ghost use Rattle.script.specs.Words.{unread};

use super::words::{Words, at_most, number_of};
use lines::{Fault, Part};
use std::alloc::Global;

// A memory drive's bytes are held in memory: 1 GiB at most.
const MOST_SECTORS: u64 = 1 << 21;

#[derive(Drop)]
pub enum Drive {
    Memory {
        sectors: u64,
        unreadable: Vec<u64>,
        unwritable: Vec<u64>,
    },
    Rom {
        sectors: u64,
    },
}

impl Drive {
    // memory SECTORS [unreadable N ..] [unwritable N ..]
    pub(super) fn memory(heap: Global, mut words: Words) -> Result<Drive, Fault>
        ensures { (name : List ℕ) → Read told_drive (memory_said (name ∷ unread words.entry)) result }
    {
        let sectors = words.number(Part::Sectors)?;
        let sectors = at_most(sectors, Part::Sectors, MOST_SECTORS)?;
        Drive::with_lists(heap, sectors, words.left)
    }

    #[tactic(auto, using(crate::proofs::Drives::lists_cut))]
    fn with_lists(heap: Global, sectors: u64, words: &[&str]) -> Result<Drive, Fault>
        ensures { Read told_drive (lists_in sectors (texts words.now)) result }
    {
        let (front, back) = words.split_at(seam(words).unwrap_or(words.len()));
        let unreadable = marked(heap, front, "unreadable", Part::Unreadable)?;
        let unwritable = marked(heap, back, "unwritable", Part::Unwritable)?;
        Ok(Drive::Memory {
            sectors,
            unreadable,
            unwritable,
        })
    }

    // rom SECTORS
    pub(super) fn rom(mut words: Words) -> Result<Drive, Fault>
        ensures { (name : List ℕ) → Read told_drive (rom_said (name ∷ unread words.entry)) result }
    {
        let sectors = words.number(Part::Sectors)?;
        words.end()?;
        Ok(Drive::Rom { sectors })
    }
}

// Where the list of unwritable sectors begins, if there is one.
fn seam(words: &[&str]) -> Option<usize>
    ensures { result ≡ position (λ word. bytes_eq word.now (codes "unwritable")) words.now }
{
    words.iter().position(|word| *word == "unwritable")
}

// A list of sectors: nothing, or its name and one number or more.
#[tactic(auto, using(crate::proofs::Drives::named_alone, crate::proofs::Drives::named_first))]
fn marked(heap: Global, words: &[&str], name: &str, part: Part) -> Result<Vec<u64>, Fault>
    ensures { Read vec_items (marked_in name.now part (texts words.now)) result }
{
    match words {
        [] => Ok(Vec::new(heap)),
        [first, ..] if *first != name => Err(Fault::ExtraWord),
        [_] => Err(Fault::MissingWord(part)),
        [_, numbers @ ..] => all_numbers(heap, numbers, part),
    }
}

fn all_numbers(heap: Global, words: &[&str], part: Part) -> Result<Vec<u64>, Fault>
    ensures { Read vec_items (numbers part (texts words.now)) result }
{
    words
        .iter()
        .map(|word| number_of(word, part))
        .try_collect(heap)
}
