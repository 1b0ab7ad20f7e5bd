// The header of a job, by a survey of all its words.
ghost use Rattle.std.specs.Prelude.{◌≡◌};
ghost use Rattle.jobs.specs.Activations.{format_of, held_words};
ghost use Rattle.jobs.specs.Error.{MadeInMemory};
ghost use Rattle.jobs.specs.Survey.{coding_of, surveyed, header_check, HeaderOf};

use crate::activations::Activations;
use crate::error::JobError;
use crate::job::Job;
use alignment::{SharedExponent, TILE_WORDS};
use formats::{Bfloat16, Binary16, Binary32, Fixed8, Format};
use listing::Header;
use refusals::Refusal;
use std::alloc::Global;

// The larger of the format's least exponent and every exponent of the words, surveyed tile by tile.
fn survey_tiles<F: Format>(format: &F, words: &[F::Word]) -> Result<i32, Refusal>
    ensures { result ≡ surveyed (F.Format.meaning format.now) words.now }
{
    let mut shared = SharedExponent::least(format);
    for tile in words.chunks(TILE_WORDS) {
        shared = shared.survey(format, tile)?;
    }
    Ok(shared.exponent())
}

impl Activations {
    // The same of these words, of their format. Each format is a type of its own, so each arm is written out.
    fn survey(&self) -> Result<i32, Refusal>
        ensures { result ≡ surveyed (coding_of (format_of self.now)) (held_words self.now) }
    {
        match self {
            Activations::Binary16(words) => survey_tiles(&Binary16, words.as_slice()),
            Activations::Bfloat16(words) => survey_tiles(&Bfloat16, words.as_slice()),
            Activations::Binary32(words) => survey_tiles(&Binary32, words.as_slice()),
            Activations::Fixed8(words) => survey_tiles(&Fixed8::new(0)?, words.as_slice()),
        }
    }
}

// The header of the job that a file holds, or why it has none.
pub fn header(heap: Global, file: &[u8]) -> Result<Header, JobError>
    ensures { MadeInMemory (header_check file.now) (HeaderOf file.now) result }
{
    let job = Job::read(file)?;
    let shared = job.words(heap)?.survey()?;
    Ok(Header {
        rows: job.plan.rows,
        shared,
        extra: job.plan.extra,
    })
}
