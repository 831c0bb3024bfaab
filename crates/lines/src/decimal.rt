// A number of a script: decimal digits and nothing else, below 2^64.
ghost use Rattle.std.specs.Prelude.{◌≡◌};
ghost use Rattle.lines.specs.Number.{number_in};

#[tactic(auto, using(crate::proofs::Numbers::own, crate::proofs::Numbers::number_from, std::proofs::lemmas::Str::Parse::parse_plain))]
pub fn number(word: &str) -> Option<u64>
    ensures { result ≡ number_in word.now }
{
    if word.starts_with('+') {
        return None;
    }
    word.parse::<u64>().ok()
}
