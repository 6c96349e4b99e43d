// Why a fetch, a put or a load gave up.

ghost use Rattle.std.specs.Prelude.{◌≡◌};
ghost use Rattle.flex_io.specs.declared.error.FetchError.TheVariants as fetch;
ghost use Rattle.flex_io.specs.declared.error.LoadError.TheVariants as load;
ghost use Rattle.flex_io.specs.declared.error.PutError.TheVariants as put;
ghost use Rattle.flex_io.specs.Answers.{load_error_of};

use flex_model::NoMemory;
use std::alloc::{AllocError, AllocFailed};
use thiserror::Error;

/// Why a fetch gave up.
#[derive(Clone, Copy, Debug, PartialEq, Eq, Error)]
pub enum FetchError {
    /// The files could not be read, which their count of faults shows.
    #[error("a file could not be read")]
    Failed,
    #[error("memory ran out")]
    NoMemory,
}

/// Why a put gave up.
#[derive(Clone, Copy, Debug, PartialEq, Eq, Error)]
pub enum PutError {
    /// The sink could not be written, which its count of faults shows.
    #[error("the output could not be written")]
    Failed,
    #[error("memory ran out")]
    NoMemory,
}

/// Why a call that fetches files gave up.
#[derive(Clone, Copy, Debug, PartialEq, Eq, Error)]
pub enum LoadError {
    /// A fetch failed.
    #[error("a file could not be read")]
    ReadFault,
    #[error("memory ran out")]
    NoMemory,
}

impl From<AllocError> for FetchError {
    ghost from_gives = { λ _ e. e ≡ fetch.NoMemory };

    fn from(_error: AllocError) -> Self {
        FetchError::NoMemory
    }
}

impl From<AllocError> for PutError {
    ghost from_gives = { λ _ e. e ≡ put.NoMemory };

    fn from(_error: AllocError) -> Self {
        PutError::NoMemory
    }
}

impl From<NoMemory> for PutError {
    ghost from_gives = { λ _ e. e ≡ put.NoMemory };

    fn from(_error: NoMemory) -> Self {
        PutError::NoMemory
    }
}

impl From<FetchError> for LoadError {
    ghost from_gives = { λ error e. e ≡ load_error_of error };

    fn from(error: FetchError) -> Self {
        match error {
            FetchError::Failed => LoadError::ReadFault,
            FetchError::NoMemory => LoadError::NoMemory,
        }
    }
}

impl From<NoMemory> for LoadError {
    ghost from_gives = { λ _ e. e ≡ load.NoMemory };

    fn from(_error: NoMemory) -> Self {
        LoadError::NoMemory
    }
}

impl From<AllocError> for LoadError {
    ghost from_gives = { λ _ e. e ≡ load.NoMemory };

    fn from(_error: AllocError) -> Self {
        LoadError::NoMemory
    }
}

impl<T: Drop> From<AllocFailed<T>> for LoadError {
    ghost from_gives = { λ _ e. e ≡ load.NoMemory };

    fn from(_error: AllocFailed<T>) -> Self {
        LoadError::NoMemory
    }
}
