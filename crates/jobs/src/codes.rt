// The codes of a job: one byte each, which names a format or a unit. (The code of a sheet is the crate `sheets`' own.)
ghost use Rattle.std.specs.Prelude.{◌≡◌};
ghost use Rattle.sheets.specs.Code.{coded, known};
ghost use Rattle.jobs.specs.Codes.{format_codes, format_number, unit_codes, unit_number, word_bytes};

use refusals::Refusal;

// How the activations are written. Fixed8 has the power 0.
#[derive(Clone, Copy, PartialEq, Eq, Debug)]
pub enum FormatCode {
    Binary16,
    Bfloat16,
    Binary32,
    Fixed8,
}

// The format that a number stands for. (Each code is a table of its own, so each `try_from` is written out.)
impl TryFrom<u8> for FormatCode {
    type Error = Refusal;

    ghost try_from_gives = { λ number r. r ≡ known (coded format_number format_codes number) };

    fn try_from(number: u8) -> Result<Self, Refusal> {
        match number {
            1 => Ok(FormatCode::Binary16),
            2 => Ok(FormatCode::Bfloat16),
            3 => Ok(FormatCode::Binary32),
            4 => Ok(FormatCode::Fixed8),
            _ => Err(Refusal::UnknownCode),
        }
    }
}

impl FormatCode {
    // How many bytes a word has.
    pub fn word_bytes(self) -> usize
        ensures { result ≡ word_bytes self }
    {
        match self {
            FormatCode::Fixed8 => 1,
            FormatCode::Binary16 | FormatCode::Bfloat16 => 2,
            FormatCode::Binary32 => 4,
        }
    }
}

// What forms the sums, the upper layer first.
#[derive(Clone, Copy, PartialEq, Eq, Debug)]
pub enum UnitCode {
    DrainMultiplier,
    DrainOddPlane,
    DrainPlane,
}

// The unit that a number stands for.
impl TryFrom<u8> for UnitCode {
    type Error = Refusal;

    ghost try_from_gives = { λ number r. r ≡ known (coded unit_number unit_codes number) };

    fn try_from(number: u8) -> Result<Self, Refusal> {
        match number {
            1 => Ok(UnitCode::DrainMultiplier),
            2 => Ok(UnitCode::DrainOddPlane),
            3 => Ok(UnitCode::DrainPlane),
            _ => Err(Refusal::UnknownCode),
        }
    }
}
