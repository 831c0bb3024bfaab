// How a script went: its commands obeyed or refused, its expectations met or not.
ghost use Rattle.std.specs.Prelude.{◌≡◌, Some};
ghost use Rattle.session.specs.Scores.{marked, has_marks};
ghost use Rattle.session.specs.Tallies.{tally_text};

use std::fmt;

// How often a thing went as it should, and how often not.
#[derive(Clone, Copy, PartialEq, Eq, Debug, Default)]
pub struct Score {
    pub passed: u64,
    pub failed: u64,
}

impl Score {
    // One time more.
    pub(super) fn mark(&mut self, passed: bool)
        ensures { self.new ≡ marked passed self.old }
    {
        if passed {
            self.passed = self.passed.saturating_add(1);
        } else {
            self.failed = self.failed.saturating_add(1);
        }
    }

    // Whether there was any.
    fn has_marks(&self) -> bool
        ensures { result ≡ has_marks self.now }
    {
        self.passed > 0 || self.failed > 0
    }
}

#[derive(Clone, Copy, PartialEq, Eq, Debug, Default)]
pub struct Tally {
    pub commands: Score,
    pub expectations: Score,
}

impl fmt::Display for Tally {
    ghost output = { λ tally. Some (tally_text tally) };

    fn fmt<W: fmt::Write>(&self, f: &mut fmt::Formatter<W>) -> fmt::Result {
        let Tally {
            commands,
            expectations,
        } = self;
        let all = u128::from(commands.passed) + u128::from(commands.failed);
        write!(
            f,
            "{all} commands: {} ok, {} refused",
            commands.passed, commands.failed
        )?;
        if expectations.has_marks() {
            write!(
                f,
                "; {} as expected, {} not",
                expectations.passed, expectations.failed
            )?;
        }
        Ok(())
    }
}
