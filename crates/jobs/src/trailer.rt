// The trailer: the last 16 bytes of a job file, which say what it holds and where.
ghost use Rattle.std.specs.Prelude.{◌≡◌, length};
ghost use Rattle.refusals.specs.Refusing.{Made};
ghost use Rattle.jobs.specs.Trailer.{trailer_of, file_check};

use crate::words::word_at;
use refusals::Refusal;

// The fields, as they stand in the file: their codes may name nothing, and a `Plan` has the enums.
#[derive(Clone, Copy)]
pub struct Trailer {
    pub activations: u32,
    pub weights: u32,
    pub rows: u16,
    pub columns: u8,
    pub format: u8,
    pub sheet: u8,
    pub extra: u8,
    pub unit: u8,
    pub mark: u8,
}

pub const TRAILER_BYTES: usize = 16;

const LONGEST_FILE: usize = 65_536;

impl Trailer {
    // The trailer of a file that is neither too short nor too long.
    pub(crate) fn read(file: &[u8]) -> Result<Trailer, Refusal>
        ensures { Made (file_check (length file.now)) (λ t. t ≡ trailer_of file.now) result }
    {
        if file.len() < TRAILER_BYTES || file.len() > LONGEST_FILE {
            return Err(Refusal::FileLength);
        }
        let end = &file[file.len() - TRAILER_BYTES..];
        Ok(Trailer {
            activations: word_at(end, 0),
            weights: word_at(end, 4),
            rows: word_at(end, 8),
            columns: word_at(end, 10),
            format: word_at(end, 11),
            sheet: word_at(end, 12),
            extra: word_at(end, 13),
            unit: word_at(end, 14),
            mark: word_at(end, 15),
        })
    }
}
