// What a job prints: a header and a line for each column, or one line that says by which number it was refused. Each line
// ends with byte 10.
#![tactic(auto)]

ghost use Rattle.std.specs.Prelude.{Some};
ghost use Rattle.listing.specs.Lines.{header_text, line_text, listing_text, refused_text};

mod hex;

pub use hex::{Hex, hex_reads_back};
use refusals::Refusal;
use std::fmt;

// What heads the listing of an accepted job.
#[derive(Clone, Copy, Debug, PartialEq, Eq)]
pub struct Header {
    pub rows: u16,
    pub shared: i32,
    pub extra: u8,
}

impl fmt::Display for Header {
    ghost output = { λ h. Some (header_text h) };

    fn fmt<W: fmt::Write>(&self, f: &mut fmt::Formatter<W>) -> fmt::Result {
        writeln!(
            f,
            "rows {} shared {} extra {}",
            self.rows, self.shared, self.extra
        )
    }
}

// What is read of a column: its total, its slack, and the result word.
#[derive(Clone, Copy, Debug, PartialEq, Eq)]
pub struct Line {
    pub column: u8,
    pub total: i64,
    pub slack: u32,
    pub word: u32,
}

impl fmt::Display for Line {
    ghost output = { λ l. Some (line_text l) };

    fn fmt<W: fmt::Write>(&self, f: &mut fmt::Formatter<W>) -> fmt::Result {
        let word = Hex(self.word);
        writeln!(f, "{} {} {} {word}", self.column, self.total, self.slack)
    }
}

// What is printed of an accepted job.
#[derive(Debug, Drop)]
pub struct Listing {
    pub header: Header,
    pub lines: Vec<Line>,
}

impl fmt::Display for Listing {
    ghost output = { λ l. Some (listing_text l.header l.lines.items) };

    fn fmt<W: fmt::Write>(&self, f: &mut fmt::Formatter<W>) -> fmt::Result {
        write!(f, "{}", self.header)?;
        for line in &self.lines {
            write!(f, "{line}")?;
        }
        Ok(())
    }
}

// What is printed of a refused job.
#[derive(Clone, Copy, Debug, PartialEq, Eq)]
pub struct Refused(pub Refusal);

impl fmt::Display for Refused {
    ghost output = { λ r. Some (refused_text r.0) };

    fn fmt<W: fmt::Write>(&self, f: &mut fmt::Formatter<W>) -> fmt::Result {
        writeln!(f, "refused {}", self.0.number())
    }
}
