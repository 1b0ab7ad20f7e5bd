// The text that a file is answered with.
ghost use Rattle.std.specs.Prelude.{IfOk, string_bytes};
ghost use Rattle.jobs.specs.Text.{TextOf};

use crate::error::JobError;
use listing::Refused;
use std::alloc::{AllocError, Global};
use std::fmt;

// What is printed of an answer: what was made of the file, or by which number it is refused. (The contract lets memory run
// out at any time: the runs of the programs show that there is a text.)
pub fn text_of<T: fmt::Display + Drop>(
    heap: Global,
    told: Result<T, JobError>,
) -> Result<String, AllocError>
    ensures { IfOk result (λ s. TextOf T.Display.output told (string_bytes s)) }
{
    match told {
        Ok(made) => made.to_string(heap),
        Err(JobError::Refused(refusal)) => Refused(refusal).to_string(heap),
        Err(JobError::Memory(error)) => Err(error),
    }
}
