// Why a part of a certificate is not valid.

use flex_model::{JourneyFlaw, Ride, Triple};

/// Why a part of a certificate is not valid: the first of its tests that fails, in this order of
/// kinds, and within a kind in the order of the numbers. Answers count from 1, and labels from 1
/// through all rounds. This project's own.
#[derive(Clone, Copy, Debug, PartialEq, Eq)]
pub enum Reason {
    /// Its id is not that of the query, or it asks for walking where the query doesn't, or doesn't
    /// where the query does.
    Query,
    /// It has not a round for each number of rides up to the query's transfers and one.
    Rounds,
    /// The rides of an answer are no permitted journey.
    Journey {
        /// The answer.
        answer: u64,
        /// The first test that its rides fail.
        flaw: JourneyFlaw,
    },
    /// The triple of an answer is not that of its rides.
    TripleDiffers {
        /// The answer.
        answer: u64,
        /// The triple that is printed.
        told: Triple,
        /// The triple of its rides.
        real: Triple,
    },
    /// An answer doesn't come before the next one: by transfers, then by arrival, then by walk.
    NotOrdered {
        /// The answer.
        answer: u64,
    },
    /// Another answer covers an answer.
    Beaten {
        /// The answer.
        answer: u64,
        /// The first other one that covers it.
        by: u64,
    },
    /// A label stands neither at a stop that can be boarded nor at the destination.
    LabelPlace {
        /// The label.
        label: u64,
    },
    /// From a label the destination is reached in time, and no answer covers that.
    FinalUncovered {
        /// The label.
        label: u64,
    },
    /// A ride on the way from the origin is not held in the first round, or one after a label is
    /// not held in the round after that of the label.
    Uncovered {
        /// The label, or 0 for a ride from the origin.
        from: u64,
        /// The ride. Which of several rides from there is named is free.
        ride: Ride,
    },
}

/// What the checker says of a part of a certificate. This project's own.
#[derive(Clone, Copy, Debug, PartialEq, Eq)]
pub enum Verdict {
    /// The part is valid, so its answers are exact.
    Yes,
    /// The part is not valid, and this is the first reason.
    No(Reason),
}
