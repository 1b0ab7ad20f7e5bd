// Why a call was refused: the one enum of the whole module, with the places that the caller needs.
#![tactic(auto)]

ghost use Rattle.std.specs.Prelude.{◌≡◌};
ghost use Rattle.refusals.specs.Number.{number_of};

use thiserror::Error;

// Rows are counted from 0 in their tile, columns from 0.
#[derive(Clone, Copy, PartialEq, Eq, Debug, Error)]
pub enum Refusal {
    // A unit or a sheet has no column, or more than 16.
    #[error("the columns are not 1 to 16")]
    ColumnCount,
    // There is not one weight, or one place in a buffer, for each column.
    #[error("there is not one weight for each column")]
    WeightCount,
    // The unit has no room for the row.
    #[error("the unit has no room for so many rows")]
    RowLimit,
    // The aligned number is 2^36 or more in magnitude.
    #[error("the aligned number is 2^36 or more")]
    NumberTooLarge,
    // The unit does not take the weight of this column, the first such one.
    #[error("the unit does not take the weight in column {column}")]
    WeightNotTaken { column: usize },
    // In this row of a tile, the unit does not take the weight of this column, the first such one.
    #[error("the unit does not take the weight in row {row}, column {column}")]
    WeightNotTakenAt { row: usize, column: usize },
    // The unit has no such column.
    #[error("there is no such column")]
    NoSuchColumn,
    // A sheet has more than 128 rows.
    #[error("the sheet has more than 128 rows")]
    TooManyRows,
    // A sheet has no plane, or more than 8.
    #[error("the planes are not 1 to 8")]
    PlaneCount,
    // The bytes are not as many as the sheet's weights take.
    #[error("the bytes are not as many as the sheet has")]
    ByteLength,
    // The sheet has no such row or column.
    #[error("the place lies outside the sheet")]
    OutsideSheet,
    // The power of fixed8 lies outside -64 to 64.
    #[error("the power is not -64 to 64")]
    PowerRange,
    // There are more than 12 extra bits.
    #[error("there are more than 12 extra bits")]
    ExtraBits,
    // A tile has more than 128 words.
    #[error("the tile has more than 128 words")]
    TooManyWords,
    // The word of this row is not finite.
    #[error("the word in row {row} is not finite")]
    NotFinite { row: usize },
    // The words are not as many as the sheet's rows.
    #[error("the words are not as many as the sheet's rows")]
    WordCount,
    // The sheet's columns are not as many as the unit's.
    #[error("the sheet and the unit differ in columns")]
    ColumnsDiffer,
    // The exponent of this row's word lies above the shared one.
    #[error("the exponent in row {row} is above the shared one")]
    AboveShared { row: usize },
    // A job file has under 16 or over 65,536 bytes.
    #[error("the file is not 16 to 65536 bytes long")]
    FileLength,
    // A job's mark or one of its codes is unknown, or it has over 4,096 rows.
    #[error("the trailer has an unknown mark, code or row count")]
    UnknownCode,
    // A section of a job file does not end before the trailer.
    #[error("a section does not end before the trailer")]
    SectionOutside,
}

impl Refusal {
    // The number by which a refusal is known outside, as in what the job program prints. Two cases have one, so the cases'
    // own values cannot be the numbers.
    pub fn number(self) -> u8
        ensures { result ≡ number_of self }
    {
        match self {
            Refusal::ColumnCount => 1,
            Refusal::WeightCount => 2,
            Refusal::RowLimit => 3,
            Refusal::NumberTooLarge => 4,
            Refusal::WeightNotTaken { .. } | Refusal::WeightNotTakenAt { .. } => 5,
            Refusal::NoSuchColumn => 6,
            Refusal::TooManyRows => 7,
            Refusal::PlaneCount => 8,
            Refusal::ByteLength => 9,
            Refusal::OutsideSheet => 10,
            Refusal::PowerRange => 11,
            Refusal::ExtraBits => 12,
            Refusal::TooManyWords => 13,
            Refusal::NotFinite { .. } => 14,
            Refusal::WordCount => 15,
            Refusal::ColumnsDiffer => 16,
            Refusal::AboveShared { .. } => 17,
            Refusal::FileLength => 20,
            Refusal::UnknownCode => 21,
            Refusal::SectionOutside => 22,
        }
    }
}

#[cfg(test)]
mod tests {
    use super::*;
    use std::test::Fail;

    #[test]
    fn places_are_told(rt: HostRuntime) -> Result<(), Fail> {
        let text = Refusal::NotFinite { row: 7 }.to_string(rt.alloc())?;
        assert_eq!(rt; text.as_str(), "the word in row 7 is not finite");
        let text = Refusal::WeightNotTaken { column: 3 }.to_string(rt.alloc())?;
        assert_eq!(rt;
            text.as_str(),
            "the unit does not take the weight in column 3"
        );
        Ok(())
    }
}
