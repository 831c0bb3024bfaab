// The words of a command: what stands between its spaces.
ghost use Rattle.std.specs.Prelude.{◌==◌, length, ◌≡◌, MatchResult};
ghost use Rattle.lines.specs.declared.fault.Fault.TheVariants.{NoMemory};
ghost use Rattle.std.specs.List.{list_any};
ghost use Rattle.lines.specs.Texts.{texts};
ghost use Rattle.script.specs.Cuts.{Cut, solid};

use lines::Fault;
use std::alloc::Global;

// The words of a command stand one space apart, so that none of them is empty.
#[tactic(auto, using(crate::proofs::Cuts::cut_by))]
pub fn split<'a>(heap: Global, text: &'a str) -> Result<Vec<&'a str>, Fault>
    ensures { MatchResult result (λ words. Cut text.now (texts words.items)) (λ fault. fault ≡ NoMemory) }
{
    Ok(text.split(' ').collect(heap)?)
}

#[tactic(auto, using(crate::proofs::Cuts::solid_by))]
pub fn all_solid(words: &[&str]) -> Result<(), Fault>
    ensures { result ≡ solid (texts words.now) }
{
    if any_empty(words) {
        return Err(Fault::EmptyWord);
    }
    Ok(())
}

fn any_empty(words: &[&str]) -> bool
    ensures { result ≡ list_any (λ word. length word.now == 0) words.now }
{
    words.iter().any(|word| word.is_empty())
}
