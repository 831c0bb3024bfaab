// A script's text, line by line.
ghost use Rattle.std.specs.Prelude.{◌≡◌};
ghost use Rattle.std.specs.Iterator.{at_most};
ghost use Rattle.lines.specs.Rest.{First, GivesLine, left};

const NEWLINE: u8 = b'\n';

#[derive(Drop)]
pub struct Lines<'a> {
    rest: &'a [u8],
    // The number of the line that came last: the first line is line 1.
    pub number: u64,
}

impl<'a> Lines<'a> {
    pub fn new(text: &'a [u8]) -> Lines<'a>
        ensures rest { result.rest.now ≡ text.now }
        ensures number { result.number ≡ 0 }
    {
        Lines {
            rest: text,
            number: 0,
        }
    }
}

impl<'a> Iterator for Lines<'a> {
    type Item = &'a [u8];

    ghost next_gives = { GivesLine };

    ghost remaining = { λ lines. at_most (left lines) };

    fn next(&mut self) -> Option<&'a [u8]> {
        if self.rest.is_empty() {
            return None;
        }
        let (line, rest) = first_line(self.rest);
        self.rest = rest;
        self.number = self.number.saturating_add(1);
        Some(line)
    }
}

// The first line of a text, and what follows the newline that ends it. The newline is taken off behind the search: with
// `&text[end + 1..]` at the place that was found, the compiler counts a pointer along, and long lines take a third more time.
fn first_line(text: &[u8]) -> (&[u8], &[u8])
    ensures { First text.now result.0.now result.1.now }
{
    let end = text.iter().position(|byte| *byte == NEWLINE);
    let (line, rest) = text.split_at(end.unwrap_or(text.len()));
    match rest {
        [_, rest @ ..] => (line, rest),
        [] => (line, rest),
    }
}
