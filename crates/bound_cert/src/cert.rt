// Certificates.

use flex_model::{Answer, Deadline, Listed, Moment, Place, Text};

/// One can be at the place at the arrival, with this walk, if all is booked by the deadline. This
/// project's own.
#[derive(Clone, Copy, Debug, PartialEq, Eq)]
pub struct CertLabel {
    /// A stop or a point.
    pub place: Place,
    /// Until when all is to be booked.
    pub deadline: Deadline,
    /// In seconds since 1970-01-01T00:00:00Z.
    pub arrival: Moment,
    /// The seconds on foot, 0 where the query doesn't ask for walking.
    pub walk: u32,
}

/// The labels of one number of rides, in any order.
#[derive(Debug, Drop)]
pub struct CertRound {
    /// The labels.
    pub labels: Listed<CertLabel>,
}

/// The answers to a query, and the label table that shows that there are no better ones.
#[derive(Debug, Drop)]
pub struct CertPart {
    /// The id of the query.
    pub query: Text,
    /// Whether the query asks for walking.
    pub walking: bool,
    /// The printed answers.
    pub answers: Listed<Answer>,
    /// The rounds of the label table, that of one ride first.
    pub rounds: Listed<CertRound>,
}

/// A certificate: a part for each query, in the order of the queries.
#[derive(Debug, Drop)]
pub struct Cert {
    /// The parts.
    pub parts: Listed<CertPart>,
}
