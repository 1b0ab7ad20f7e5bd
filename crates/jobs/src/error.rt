// Why a file is not answered as a job.
ghost use Rattle.std.specs.Prelude.{◌≡◌, alloc_error};
ghost use Rattle.jobs.specs.declared.error.JobError.TheVariants.{Refused, Memory};

use refusals::Refusal;
use std::alloc::{AllocError, AllocFailed};
use thiserror::Error;

// The file is refused, or memory ran out. (The error of a list of calls has other cases, and a crate of its own.)
#[derive(Clone, Copy, PartialEq, Eq, Debug, Error)]
pub enum JobError {
    #[error(transparent)]
    Refused(Refusal),
    #[error(transparent)]
    Memory(AllocError),
}

// By hand, this one and those below: what `#[from]` derives has no contract.
impl From<Refusal> for JobError {
    ghost from_gives = { λ refusal e. e ≡ Refused refusal };

    fn from(refusal: Refusal) -> JobError {
        JobError::Refused(refusal)
    }
}

impl From<AllocError> for JobError {
    ghost from_gives = { λ error e. e ≡ Memory error };

    fn from(error: AllocError) -> JobError {
        JobError::Memory(error)
    }
}

// What `?` makes of a value for which there was no room.
impl<T: Drop> From<AllocFailed<T>> for JobError {
    ghost from_gives = { λ _ e. e ≡ Memory alloc_error };

    fn from(failed: AllocFailed<T>) -> JobError {
        JobError::Memory(failed.into())
    }
}
