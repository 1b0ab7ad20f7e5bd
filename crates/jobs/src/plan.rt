// What a trailer asks for, once its codes are known.
ghost use Rattle.std.specs.Prelude.{◌≡◌, ◌^◌, ◌<◌, Some};
ghost use Rattle.refusals.specs.Refusing.{Made};
ghost use Rattle.jobs.specs.Plan.{plan_of, plan_check, activation_bytes, weight_bytes};

use crate::codes::{FormatCode, UnitCode};
use crate::trailer::Trailer;
use alignment::{ExtraBits, TILE_WORDS};
use columns::Columns;
use refusals::Refusal;
use sheets::SheetCode;

#[derive(Clone, Copy)]
pub struct Plan {
    pub rows: u16,
    pub columns: u8,
    pub format: FormatCode,
    pub sheet: SheetCode,
    pub extra: u8,
    pub unit: UnitCode,
}

// The last byte of a job.
const MARK: u8 = 0x54;

const MOST_ROWS: u16 = 4096;

// Each sheet has the weights of one tile, the last one fewer.
const SHEET_ROWS: u16 = TILE_WORDS as u16;

// What a trailer asks for.
impl TryFrom<Trailer> for Plan {
    type Error = Refusal;

    ghost try_from_gives = { λ trailer r. Made (plan_check trailer) (λ p. plan_of trailer ≡ Some p) r };

    fn try_from(trailer: Trailer) -> Result<Self, Refusal> {
        let format = FormatCode::try_from(trailer.format)?;
        let sheet = SheetCode::try_from(trailer.sheet)?;
        let unit = UnitCode::try_from(trailer.unit)?;
        if trailer.mark != MARK || trailer.rows > MOST_ROWS {
            return Err(Refusal::UnknownCode);
        }
        // Checked and not kept: a narrower field would ask more of whoever makes a plan.
        Columns::new(usize::from(trailer.columns))?;
        ExtraBits::new(u32::from(trailer.extra))?;
        Ok(Plan {
            rows: trailer.rows,
            columns: trailer.columns,
            format,
            sheet,
            extra: trailer.extra,
            unit,
        })
    }
}

impl Plan {
    // How many bytes the activations take.
    pub fn activation_bytes(self) -> usize
        ensures value { result ≡ activation_bytes self }
        ensures bound { result < 2 ^ 40 }
    {
        usize::from(self.rows) * self.format.word_bytes()
    }

    // How many bytes the sheets take.
    pub fn weight_bytes(self) -> usize
        ensures value { result ≡ weight_bytes self }
        ensures bound { result < 2 ^ 40 }
    {
        let full = self.sheet.byte_length(SHEET_ROWS, self.columns);
        let last = self.sheet.byte_length(self.rows % SHEET_ROWS, self.columns);
        usize::from(self.rows / SHEET_ROWS) * full + last
    }
}
