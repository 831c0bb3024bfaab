// What a script's run remembers: its tally, and the latest outcome line, which expectations speak of.
ghost use Rattle.std.specs.Prelude.{◌≡◌, Some, None, MatchResult, OnOk};
ghost use Rattle.session.specs.Outcomes.{accepted, outcome_text};
ghost use Rattle.session.specs.Sessions.{latest_text, answered, judged};
ghost use Rattle.session.specs.Tallies.{counted, none_yet};

use super::outcome::Outcome;
use super::tally::Tally;
use lines::Fault;
use std::alloc::{AllocError, Global};

#[derive(Default, Drop)]
pub struct Session {
    pub tally: Tally,
    latest: Option<String>,
}

impl Session {
    pub fn new() -> Session
        ensures tally { result.tally ≡ none_yet }
        ensures latest { latest_text result ≡ None }
    {
        Session::default()
    }

    // Counts a command and keeps its outcome line; without memory for the line, nothing changes.
    pub fn note(&mut self, heap: Global, outcome: &Outcome) -> Result<(), AllocError>
        ensures tally { MatchResult result (λ _. self.new.tally ≡ counted (accepted outcome.now) self.old.tally) (λ _. self.new ≡ self.old) }
        ensures latest { OnOk result (latest_text self.new ≡ Some (outcome_text outcome.now)) }
    {
        let line = outcome.to_string(heap)?;
        self.tally.commands.mark(outcome.accepted());
        self.latest = Some(line);
        Ok(())
    }

    // Whether the latest outcome line is the one that is expected, which is counted.
    pub fn expect(&mut self, text: &str) -> Result<bool, Fault>
        ensures answer { result ≡ answered (latest_text self.old) text.now }
        ensures tally { self.new.tally ≡ judged (latest_text self.old) text.now self.old.tally }
        ensures same { latest_text self.new ≡ latest_text self.old }
    {
        let line = self.latest.as_ref().ok_or(Fault::NothingBefore)?;
        let met = line.as_str() == text;
        self.tally.expectations.mark(met);
        Ok(met)
    }
}
