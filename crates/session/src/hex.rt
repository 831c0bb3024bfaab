// A number of 32 bits as eight hexadecimal digits.
ghost use Rattle.std.specs.Prelude.{Some};
ghost use Rattle.session.specs.Hex.{hex_text};

use std::fmt;

#[derive(Clone, Copy)]
pub struct Hex(pub u32);

impl fmt::Display for Hex {
    ghost output = { λ hex. Some (hex_text hex.0) };

    fn fmt<W: fmt::Write>(&self, f: &mut fmt::Formatter<W>) -> fmt::Result {
        // With `self.0` in the text the proof did not close: the check knows a variable's range, and not a field's.
        let Hex(number) = *self;
        write!(f, "{number:08x}")
    }
}
