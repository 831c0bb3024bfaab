// The kinds of lines of a script.
ghost use Rattle.std.specs.Prelude.{◌≡◌};
ghost use Rattle.std.specs.Result.{result_map_both};
ghost use Rattle.lines.specs.Kinds.{told_line, kind_of, line_of};

use super::fault::Fault;
use std::str::from_utf8;

// A skipped line is a kind of line; an option around the other two would be no plainer: the same three arms, nested.
#[derive(Clone, Copy, Debug)]
pub enum Line<'a> {
    Skipped,
    Expectation(&'a str),
    Command(&'a str),
}

impl<'a> Line<'a> {
    // `try_from` would do the same; `parse` says that text is read.
    #[tactic(auto, using(crate::proofs::Sorting::ascii_true, crate::proofs::Sorting::ascii_false, crate::proofs::Sorting::not_ascii))]
    pub fn parse(bytes: &'a [u8]) -> Result<Line<'a>, Fault>
        ensures { result_map_both told_line (λ fault. fault) result ≡ line_of bytes.now }
    {
        let text = from_utf8(bytes)
            .ok()
            .filter(|text| text.is_ascii())
            .ok_or(Fault::NotAscii)?;
        Ok(Line::sort(text))
    }

    #[tactic(auto, using(crate::proofs::Sorting::plain_command))]
    fn sort(text: &'a str) -> Line<'a>
        ensures { told_line result ≡ kind_of text.now }
    {
        if text.is_empty() || text.starts_with('#') {
            return Line::Skipped;
        }
        // A match, since both arms hold a text: `map_or` would make a line of the one before it looks at the other.
        match text.strip_prefix("= ") {
            Some(expected) => Line::Expectation(expected),
            None => Line::Command(text),
        }
    }
}
