use crate::difference::Difference;
use std::alloc::{AllocError, AllocFailed};

// Why a run ends before its last call.
#[derive(Clone, Copy, Debug)]
pub enum RunError {
    Differs(Difference),
    NoMemory(AllocError),
}

impl From<Difference> for RunError {
    fn from(difference: Difference) -> RunError {
        RunError::Differs(difference)
    }
}

impl From<AllocError> for RunError {
    fn from(error: AllocError) -> RunError {
        RunError::NoMemory(error)
    }
}

impl<T: Drop> From<AllocFailed<T>> for RunError {
    fn from(failed: AllocFailed<T>) -> RunError {
        RunError::NoMemory(AllocError::from(failed))
    }
}
