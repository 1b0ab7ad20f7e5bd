// How many rows and columns a sheet has.
ghost use Rattle.std.specs.Prelude.{◌≡◌, ◌+◌, ◌*◌, ◌≤◌};
ghost use Rattle.refusals.specs.Refusing.{Made, answer};
ghost use Rattle.sheets.specs.Making.{extent_check};
ghost use Rattle.sheets.specs.Page.{outside_check};

use columns::Columns;
use refusals::Refusal;

// A sheet has at most so many rows.
const MOST_ROWS: usize = 128;

// At most 128 rows, and 1 to 16 columns. (In bytes, since a list of calls holds a sheet in each feed.)
#[derive(Clone, Copy)]
pub(crate) struct Extent {
    rows: u8,
    columns: Columns,
    ghost few_rows: { rows ≤ 128 },
}

impl Extent {
    pub fn new(rows: usize, columns: usize) -> Result<Extent, Refusal>
        ensures { Made (extent_check rows columns) (λ x. (x.rows ≡ rows) × (x.columns.count ≡ columns)) result }
    {
        if rows > MOST_ROWS {
            return Err(Refusal::TooManyRows);
        }
        let columns = Columns::new(columns)?;
        Ok(Extent {
            rows: rows as u8,
            columns,
        })
    }

    pub fn rows(self) -> usize
        ensures { result ≡ self.rows }
    {
        usize::from(self.rows)
    }

    pub fn columns(self) -> usize
        ensures { result ≡ self.columns.count }
    {
        self.columns.count()
    }

    // How many places there are.
    pub fn places(self) -> usize
        ensures value { result ≡ self.rows * self.columns.count }
        ensures bound { result ≤ 2048 }
    {
        self.rows() * self.columns()
    }

    // The place of a row and a column, counted row by row.
    pub fn place(self, row: usize, column: usize) -> Result<usize, Refusal>
        ensures { result ≡ answer (outside_check self.rows self.columns.count row column) (row * self.columns.count + column) }
    {
        if row >= self.rows() || column >= self.columns() {
            return Err(Refusal::OutsideSheet);
        }
        Ok(row * self.columns() + column)
    }
}
