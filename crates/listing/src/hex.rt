// A word in hexadecimal.
ghost use Rattle.std.specs.Prelude.{Some};
ghost use Rattle.listing.specs.Hex.{hex_text, HexReadsBack};

use std::fmt;

// A word that is shown in eight hexadecimal digits.
#[derive(Clone, Copy, Debug, PartialEq, Eq)]
pub struct Hex(pub u32);

impl fmt::Display for Hex {
    ghost output = { λ h. Some (hex_text h.0) };

    fn fmt<W: fmt::Write>(&self, f: &mut fmt::Formatter<W>) -> fmt::Result {
        let word = self.0;
        write!(f, "{word:08X}")
    }
}

// The text of a word is read as that word again.
pub fn hex_reads_back()
    ensures { HexReadsBack }
{}
