// Why a question has no answer, and what is said then.
use std::alloc::AllocError;
use thiserror::Error;

#[derive(Debug, Drop, Error)]
pub enum Refusal {
    #[error("ERROR not text")]
    NotText,
    #[error("ERROR short line")]
    ShortLine,
    #[error("ERROR unknown scalar")]
    UnknownScalar,
    #[error("ERROR bad number")]
    BadNumber,
    #[error("ERROR unknown function")]
    UnknownFunction,
    #[error("UNORDERED")]
    Unordered,
    #[error("ERROR too few numbers")]
    TooFewNumbers,
    #[error("ERROR too many numbers")]
    TooManyNumbers,
}

// What ends a question: a refusal, which is its answer, or want of memory, which ends the program.
// An enum and no Option, since `?` makes it of either error.
#[derive(Debug, Drop, Error)]
pub enum Fault {
    #[error(transparent)]
    Refused(#[from] Refusal),
    #[error(transparent)]
    Memory(#[from(alloc)] AllocError),
}
