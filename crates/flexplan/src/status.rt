// How a run ends.

ghost use Rattle.std.specs.Prelude.{◌≡◌};
ghost use Rattle.flexplan.specs.ExitNumber.{exit_number};
ghost use Rattle.flexplan.specs.declared.status.Failure.TheVariants as failure;

use flex_io::{LoadError, PutError};
use flex_model::NoMemory;

/// The answer of a run.
#[derive(Clone, Copy, Debug, PartialEq, Eq)]
pub enum Status {
    /// All is done: each query is answered, the feed has no faults, or the certificate is valid.
    Done,
    /// The words are of no accepted form.
    Usage,
    /// The feed has faults.
    FeedFaulty,
    /// The times folder has faults, and the feed has none.
    TimesFaulty,
    /// The query file has faults, and what is fetched before it has none.
    QueriesFaulty,
    /// The certificate isn't valid, and what is fetched before it has no faults.
    CertRefused,
    /// A file couldn't be read.
    ReadFault,
    /// The output couldn't be written.
    WriteFault,
    /// Memory ran out.
    NoMemory,
}

impl Status {
    /// The number of the status, which is the program's exit status.
    pub fn number(self) -> u8
        ensures { result ≡ exit_number self }
    {
        match self {
            Status::Done => 0,
            Status::Usage => 1,
            Status::FeedFaulty => 2,
            Status::TimesFaulty => 3,
            Status::QueriesFaulty => 4,
            Status::CertRefused => 5,
            Status::ReadFault => 6,
            Status::WriteFault => 7,
            Status::NoMemory => 8,
        }
    }
}

/// What ends a command before its answer is whole.
#[derive(Clone, Copy, Debug, PartialEq, Eq)]
pub enum Failure {
    ReadFault,
    WriteFault,
    NoMemory,
}

impl From<LoadError> for Failure {
    ghost use Rattle.std.specs.Prelude.{◌≡◌};
    ghost use Rattle.flexplan.specs.Failures.{failure_of_load};

    ghost from_gives = { λ error s. s ≡ failure_of_load error };

    fn from(error: LoadError) -> Self {
        match error {
            LoadError::ReadFault => Failure::ReadFault,
            LoadError::NoMemory => Failure::NoMemory,
        }
    }
}

impl From<PutError> for Failure {
    ghost use Rattle.std.specs.Prelude.{◌≡◌};
    ghost use Rattle.flexplan.specs.Failures.{failure_of_put};

    ghost from_gives = { λ error s. s ≡ failure_of_put error };

    fn from(error: PutError) -> Self {
        match error {
            PutError::Failed => Failure::WriteFault,
            PutError::NoMemory => Failure::NoMemory,
        }
    }
}

impl From<NoMemory> for Failure {
    ghost from_gives = { λ _ s. s ≡ failure.NoMemory };

    fn from(_: NoMemory) -> Self {
        Failure::NoMemory
    }
}
