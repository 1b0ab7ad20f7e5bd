// The text that a file is answered with.
ghost use Rattle.std.specs.Prelude.{IfOk, string_bytes};
ghost use Rattle.job_runs.specs.Printed.{Printed};

use crate::working::list_job;
use jobs::text_of;
use std::alloc::{AllocError, Global};

// What is printed of a file: the listing of its job, or by which number it is refused.
pub fn job_text(heap: Global, file: &[u8]) -> Result<String, AllocError>
    ensures { IfOk result (λ s. Printed file.now (string_bytes s)) }
{
    text_of(heap, list_job(heap, file))
}
