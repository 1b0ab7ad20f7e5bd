// Sheets of weights, read where they lie in the caller's bytes.
#![tactic(auto)]

ghost use Rattle.std.specs.Prelude.{◌≡◌, length};
ghost use Rattle.refusals.specs.Refusing.{answer, unless, verdict};
ghost use Rattle.sheets.specs.Page.{Lawful, Page, line, place_check, row_check};

use refusals::Refusal;

mod any;
mod bits;
mod code;
mod extent;
mod known;
mod laws;
mod making;
mod packed;
mod packing;
mod planes;

pub use code::SheetCode;
pub use known::KnownSheet;
pub use laws::{codes_stand_for_weights, spare_bits_unread};
pub use making::{AnySheet, ByteSheet, NibbleSheet, PlaneSheet};

// Weights in rows and columns.
pub trait Sheet {
    ghost meaning: { Self → Page };

    fn rows(&self) -> usize
        ensures { result ≡ (meaning self.now).rows };

    fn columns(&self) -> usize
        ensures { result ≡ (meaning self.now).columns };

    // The weight at a place, which is refused where the sheet has no such row or column.
    fn weight(&self, row: usize, column: usize) -> Result<i16, Refusal>
        ensures { result ≡ answer (place_check (meaning self.now) row column) ((meaning self.now).weight row column) };

    // Writes a row's weights into a buffer of as many. A buffer that is refused is left as it was.
    fn row(&self, row: usize, buffer: &mut [i16]) -> Result<(), Refusal>
        ensures answers { result ≡ verdict (row_check (meaning self.now) row (length buffer.old)) }
        ensures writes { buffer.new ≡ unless (row_check (meaning self.now) row (length buffer.old)) buffer.old (line (meaning self.now) row) }
    {
        if row >= self.rows() {
            return Err(Refusal::OutsideSheet);
        }
        if buffer.len() != self.columns() {
            return Err(Refusal::WeightCount);
        }
        for (column, weight) in buffer.iter_mut().enumerate() {
            *weight = self.weight(row, column)?;
        }
        Ok(())
    }

    // The bounds that each kind of sheet proves of its meaning.
    ghost lawful: { (s : Self) → Lawful (meaning s) };
}

#[cfg(test)]
mod tests {
    use super::*;
    use std::test::Fail;

    #[test]
    fn odd_nibbles(rt: HostRuntime) -> Result<(), Fail> {
        // The upper half of the last byte belongs to no weight.
        let sheet = AnySheet::new(SheetCode::Nibble, 1, 3, &[0x8F, 0xC7])?;
        let mut weights = [0; 3];
        sheet.row(0, &mut weights)?;
        assert_eq!(rt; weights, [-1, -8, 7]);
        assert_eq!(rt; sheet.row(0, &mut weights[0..2]), Err(Refusal::WeightCount));
        Ok(())
    }

    #[test]
    fn two_planes(rt: HostRuntime) -> Result<(), Fail> {
        let sheet = PlaneSheet::new(1, 2, 2, &[0b10, 0b01])?;
        assert_eq!(rt; sheet.weight(0, 0)?, 1);
        assert_eq!(rt; sheet.weight(0, 1)?, -1);
        assert_eq!(rt; sheet.weight(1, 0), Err(Refusal::OutsideSheet));
        Ok(())
    }
}
