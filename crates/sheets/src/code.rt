// How the weights of a sheet are packed.
ghost use Rattle.std.specs.Prelude.{◌≡◌, ◌*◌, ◌^◌, ◌<◌};
ghost use Rattle.sheets.specs.Code.{byte_length, coded, known, sheet_codes, sheet_number};

use refusals::Refusal;

// A byte to a weight, half a byte, or a bit in each of so many planes.
#[derive(Clone, Copy, PartialEq, Eq, Debug)]
pub enum SheetCode {
    Byte,
    Nibble,
    Planes(u8),
}

// The packing that a number stands for: 1 and 2 for bytes and nibbles, 11 to 18 for 1 to 8 planes. (Each code is a table of
// its own, so each `try_from` is written out.)
impl TryFrom<u8> for SheetCode {
    type Error = Refusal;

    ghost try_from_gives = { λ number r. r ≡ known (coded sheet_number sheet_codes number) };

    fn try_from(number: u8) -> Result<Self, Refusal> {
        match number {
            1 => Ok(SheetCode::Byte),
            2 => Ok(SheetCode::Nibble),
            11..=18 => Ok(SheetCode::Planes(number - 10)),
            _ => Err(Refusal::UnknownCode),
        }
    }
}

impl SheetCode {
    // How many bytes a sheet of so many rows and columns takes.
    pub fn byte_length(self, rows: u16, columns: u8) -> usize
        ensures value { result ≡ byte_length self (rows * columns) }
        ensures bound { result < 2 ^ 29 }
    {
        self.bytes_for(usize::from(rows) * usize::from(columns))
    }

    // How many bytes so many places take.
    pub(crate) fn bytes_for(self, places: usize) -> usize
        requires { places < 2 ^ 24 }
        ensures value { result ≡ byte_length self places }
        ensures bound { result < 2 ^ 29 }
    {
        match self {
            SheetCode::Byte => places,
            SheetCode::Nibble => places.div_ceil(2),
            SheetCode::Planes(planes) => usize::from(planes) * places.div_ceil(8),
        }
    }
}
