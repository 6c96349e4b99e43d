// Why bytes are not read as a certificate.

ghost use Rattle.std.specs.Prelude.{◌≡◌};
ghost use Rattle.bound_cert.specs.declared.error.ReadError.TheVariants as errors;

use flex_model::NoMemory;
use std::alloc::{AllocError, AllocFailed};
use thiserror::Error;

/// Why bytes are not read as a certificate.
#[derive(Clone, Copy, Debug, PartialEq, Eq, Error)]
pub enum CertError {
    /// The bytes are the text of no certificate. The line is the first one with which no text of a
    /// certificate begins, counted from 1, or the one after the last where the text ends too early.
    #[error("line {line} is bad")]
    Syntax {
        /// The line.
        line: u64,
    },
    /// Memory ran out.
    #[error("no memory")]
    NoMemory,
}

// Why a piece of a certificate is not read.
#[derive(Clone, Copy, Debug, PartialEq, Eq)]
pub(crate) enum ReadError {
    // A line is bad; so many bytes are left from its start on.
    Bad { left: usize },
    // Memory ran out.
    NoMemory,
}

impl From<NoMemory> for ReadError {
    ghost from_gives = { λ _ e. e ≡ errors.NoMemory };

    fn from(_error: NoMemory) -> ReadError {
        ReadError::NoMemory
    }
}

impl From<AllocError> for ReadError {
    ghost from_gives = { λ _ e. e ≡ errors.NoMemory };

    fn from(_error: AllocError) -> ReadError {
        ReadError::NoMemory
    }
}

impl<T: Drop> From<AllocFailed<T>> for ReadError {
    ghost from_gives = { λ _ e. e ≡ errors.NoMemory };

    fn from(_error: AllocFailed<T>) -> ReadError {
        ReadError::NoMemory
    }
}
