// Why a list of calls is not worked.
ghost use Rattle.std.specs.Prelude.{◌≡◌, alloc_error};
ghost use Rattle.calls.specs.declared.error.WorkError.TheVariants as error;

use std::alloc::{AllocError, AllocFailed};
use thiserror::Error;

// The place in a list, from 0, of the first call that the run's state would not allow.
#[derive(Clone, Copy, PartialEq, Eq, Debug, Error)]
#[error("the run does not allow call {call} of the list")]
pub struct Misplaced {
    pub call: usize,
}

// A call is misplaced, or memory ran out. (A job's error has other cases, and a crate of its own.)
#[derive(Clone, Copy, PartialEq, Eq, Debug, Error)]
pub enum WorkError {
    #[error(transparent)]
    Misplaced(Misplaced),
    #[error(transparent)]
    Memory(AllocError),
}

// By hand, as the next: what `#[from]` derives has no contract.
impl From<Misplaced> for WorkError {
    ghost from_gives = { λ misplaced e. e ≡ error.Misplaced misplaced };

    fn from(misplaced: Misplaced) -> WorkError {
        WorkError::Misplaced(misplaced)
    }
}

impl<T: Drop> From<AllocFailed<T>> for WorkError {
    ghost from_gives = { λ _ e. e ≡ error.Memory alloc_error };

    fn from(failed: AllocFailed<T>) -> WorkError {
        WorkError::Memory(failed.into())
    }
}
