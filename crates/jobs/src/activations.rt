// The activations of a job, as words of their format.
ghost use Rattle.std.specs.Prelude.{◌≡◌, IfOk};
ghost use Rattle.jobs.specs.Activations.{format_of, held_words, section_words};

use crate::codes::FormatCode;
use crate::job::Job;
use crate::words::words_of;
use std::alloc::{AllocError, Global};

// Words in the order of the rows.
#[derive(Drop)]
pub enum Activations {
    Binary16(Vec<u16>),
    Bfloat16(Vec<u16>),
    Binary32(Vec<u32>),
    Fixed8(Vec<u8>),
}

impl Job<'_> {
    // As many whole words of the job's format as its section holds: of a job that was read, one for each row.
    pub fn words(&self, heap: Global) -> Result<Activations, AllocError>
        ensures format { IfOk result (λ a. format_of a ≡ self.now.plan.format) }
        ensures words { IfOk result (λ a. held_words a ≡ section_words self.now.plan.format self.now.activations.bytes.now) }
    {
        let bytes = self.activations.bytes;
        // Each format is a type of its own, so each arm is written out.
        Ok(match self.plan.format {
            FormatCode::Binary16 => Activations::Binary16(words_of(heap, bytes)?),
            FormatCode::Bfloat16 => Activations::Bfloat16(words_of(heap, bytes)?),
            FormatCode::Binary32 => Activations::Binary32(words_of(heap, bytes)?),
            FormatCode::Fixed8 => Activations::Fixed8(words_of(heap, bytes)?),
        })
    }
}
