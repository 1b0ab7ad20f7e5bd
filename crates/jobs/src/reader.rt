// Reads a job out of a file's bytes, of which it copies none.
ghost use Rattle.std.specs.Prelude.{◌^◌, ◌<◌, ◌≤◌, length};
ghost use Rattle.refusals.specs.Refusing.{Made};
ghost use Rattle.jobs.specs.Job.{section_check, SectionOf, job_check, JobOf};

use crate::job::{Job, Section};
use crate::plan::Plan;
use crate::trailer::{TRAILER_BYTES, Trailer};
use refusals::Refusal;

impl<'a> Section<'a> {
    // So many bytes from a place on, which have to end before the trailer.
    fn cut(file: &'a [u8], place: u32, size: usize) -> Result<Section<'a>, Refusal>
        requires long { 16 ≤ length file.now }
        requires short { size < 2 ^ 40 }
        ensures { Made (section_check file.now place size) (SectionOf file.now place size) result }
    {
        let place = place as usize;
        if place + size > file.len() - TRAILER_BYTES {
            return Err(Refusal::SectionOutside);
        }
        let bytes = &file[place..place + size];
        Ok(Section { place, bytes })
    }
}

impl<'a> Job<'a> {
    // The job that a file holds, or why it holds none. (`read`, as one says of a file; `try_from` would say less.)
    pub fn read(file: &'a [u8]) -> Result<Job<'a>, Refusal>
        ensures { Made (job_check file.now) (JobOf file.now) result }
    {
        let trailer = Trailer::read(file)?;
        let plan = Plan::try_from(trailer)?;
        let activations = Section::cut(file, trailer.activations, plan.activation_bytes())?;
        let weights = Section::cut(file, trailer.weights, plan.weight_bytes())?;
        Ok(Job {
            plan,
            activations,
            weights,
        })
    }
}
