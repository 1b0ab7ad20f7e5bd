// Feeding a tile: all its checks first, and then its rows, one by one.
ghost use Rattle.std.specs.Prelude.{◌≡◌, ℕ, ◌^◌, ◌<◌, ◌≤◌, length, if◌then◌else◌, None, slice_index};
ghost use Rattle.refusals.specs.Refusing.{verdict};
ghost use Rattle.alignment.specs.Tile.{tile_of};
ghost use Rattle.alignment.specs.Cutting.{Small};
ghost use Rattle.sheets.specs.Page.{line};
ghost use Rattle.units.specs.Meaning.{columns_of, first_untaken};
ghost use Rattle.runs.specs.Checks.{row_check, rows_check};
ghost use Rattle.runs.specs.State.{fed, fed_check, put, widened};
ghost use Rattle.runs.specs.Log.{Logged};
ghost use Rattle.runs.specs.Log as log;
ghost use Rattle.runs.specs.Runs.{aligned};

use crate::AlignedRun;
use alignment::{Aligned, TILE_WORDS, cut_tile, lined_up};
use columns::MOST_COLUMNS;
use formats::Format;
use refusals::Refusal;
use sheets::Sheet;
use units::Unit;

// The weights of a row, as they lie in a buffer that takes them.
fn line_of<'b, S: Sheet>(sheet: &S, row: usize, buffer: &'b mut [i16; MOST_COLUMNS]) -> &'b [i16]
    requires { row < (S.Sheet.meaning sheet.now).rows }
    ensures { result.now ≡ line (S.Sheet.meaning sheet.now) row }
{
    let weights = &mut buffer[..sheet.columns()];
    sheet.row(row, weights).unwrap();
    weights
}

// Adds the magnitudes of a row's weights to the slacks, if a part of its word was lost.
fn note_loss(slacks: &mut [u32; MOST_COLUMNS], cut: Aligned, weights: &[i16])
    requires few { length weights.now ≤ 16 }
    requires room { (c : ℕ) → slice_index slacks.old c < 2 ^ 24 }
    ensures { slacks.new ≡ (if cut.lost then widened slacks.old weights.now else slacks.old) }
{
    if !cut.lost {
        return;
    }
    // By the weights' columns: of `iter_mut` zipped with the weights a proof would know no element, and over a slice of the
    // slacks it would be the weights that go by column.
    for (column, weight) in weights.iter().enumerate() {
        slacks[column] += u32::from(weight.unsigned_abs());
    }
}

impl<F: Format, U: Unit> AlignedRun<F, U> {
    // The checks of a row.
    fn check_row(&self, row: usize, word: F::Word, weights: &[i16]) -> Result<(), Refusal>
        ensures { result ≡ verdict (row_check self.now.step.shared.exponent (U.Unit.meaning self.now.unit).takes row ((F.Format.meaning self.now.format).decode word) weights.now) }
    {
        lined_up(&self.format, word, row, self.step.shared)?;
        match self.unit.untaken(weights) {
            Some(column) => Err(Refusal::WeightNotTakenAt { row, column }),
            None => Ok(()),
        }
    }

    // The checks of all rows, in turn. (Words and sheet stay two, here and below: they are what a feed is given.)
    fn check_rows<S: Sheet>(&self, words: &[F::Word], sheet: &S) -> Result<(), Refusal>
        requires { length words.now ≡ (S.Sheet.meaning sheet.now).rows }
        ensures { result ≡ verdict (rows_check self.now.step.shared.exponent (U.Unit.meaning self.now.unit).takes (S.Sheet.meaning sheet.now) 0 (tile_of (F.Format.meaning self.now.format) words.now)) }
    {
        let mut buffer = [0; MOST_COLUMNS];
        for (row, word) in words.iter().enumerate() {
            self.check_row(row, *word, line_of(sheet, row, &mut buffer))?;
        }
        Ok(())
    }

    // All checks of a tile.
    fn check_tile<S: Sheet>(&self, words: &[F::Word], sheet: &S) -> Result<(), Refusal>
        ensures { result ≡ verdict (fed_check (aligned F.Format.meaning U.Unit.meaning self.now) (tile_of (F.Format.meaning self.now.format) words.now) (S.Sheet.meaning sheet.now)) }
    {
        if words.len() > TILE_WORDS {
            return Err(Refusal::TooManyWords);
        }
        if words.len() != sheet.rows() {
            return Err(Refusal::WordCount);
        }
        if sheet.columns() != self.unit.columns() {
            return Err(Refusal::ColumnsDiffer);
        }
        let rows = self.rows.max(self.unit.rows());
        if rows + words.len() as u32 > self.unit.limit() {
            return Err(Refusal::RowLimit);
        }
        self.check_rows(words, sheet)
    }

    // Adds a row that passed its checks to the unit, and what it lost to the slacks.
    fn add_row(&mut self, cut: Aligned, weights: &[i16])
        requires columns { length weights.now ≡ columns_of (U.Unit.meaning self.old.unit) }
        requires small { Small cut }
        requires taken { first_untaken (U.Unit.meaning self.old.unit).takes weights.now ≡ None }
        requires room { (U.Unit.meaning self.old.unit).rows < (U.Unit.meaning self.old.unit).limit }
        requires few { self.old.rows < 65536 }
        ensures format { self.new.format ≡ self.old.format }
        ensures puts { aligned F.Format.meaning U.Unit.meaning self.new ≡ put (aligned F.Format.meaning U.Unit.meaning self.old) cut.number cut.lost weights.now }
    {
        self.unit.add(cut.number, weights).unwrap();
        note_loss(&mut self.slacks, cut, weights);
        self.rows += 1;
    }

    // Adds a tile to the unit, each word cut to whole steps.
    pub fn feed<S: Sheet>(&mut self, words: &[F::Word], sheet: &S) -> Result<(), Refusal>
        ensures answers { result ≡ verdict (fed_check (aligned F.Format.meaning U.Unit.meaning self.old) (tile_of (F.Format.meaning self.old.format) words.now) (S.Sheet.meaning sheet.now)) }
        ensures format { self.new.format ≡ self.old.format }
        ensures feeds { aligned F.Format.meaning U.Unit.meaning self.new ≡ fed (aligned F.Format.meaning U.Unit.meaning self.old) (tile_of (F.Format.meaning self.old.format) words.now) (S.Sheet.meaning sheet.now) }
        ensures logs { Logged (log.feed (tile_of (F.Format.meaning self.old.format) words.now) (S.Sheet.meaning sheet.now)) (aligned F.Format.meaning U.Unit.meaning self.old) (aligned F.Format.meaning U.Unit.meaning self.new) (fed_check (aligned F.Format.meaning U.Unit.meaning self.old) (tile_of (F.Format.meaning self.old.format) words.now) (S.Sheet.meaning sheet.now)) }
    {
        self.check_tile(words, sheet)?;
        let cuts = cut_tile(&self.format, words, self.step).unwrap();
        let mut buffer = [0; MOST_COLUMNS];
        for (row, cut) in cuts.iter().enumerate() {
            self.add_row(*cut, line_of(sheet, row, &mut buffer));
        }
        Ok(())
    }
}
