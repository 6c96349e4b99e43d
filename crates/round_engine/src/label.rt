// Labels, each with the one that it comes after.

ghost use Rattle.std.specs.Prelude.{◌≡◌, IfOk};
ghost use Rattle.round_engine.specs.Chain.{deadline_up_to};
ghost use Rattle.round_engine.specs.Made.{IsMade, made_pair};
ghost use Rattle.round_engine.specs.Ridden.{carried_to};
ghost use Rattle.flex_model.specs.Deadline.{lesser};

use crate::boarding::Boarding;
use crate::offer::Offer;
use bumpalo::Bump;
use flex_model::{Deadline, NoMemory, Pair, Place, Ride, Triple};
use ride_index::Carried;
use std::alloc::Global;

/// One can be at the place at the pair's arrival, if all rides are booked by the pair's deadline. The ride is the last
/// one. Those before it are found by going through the parents.
#[derive(Clone, Copy)]
pub struct Label<'a> {
    /// The least deadline of the rides, the arrival of the last one, and the walk up to it.
    pub pair: Pair,
    /// How many rides there are, from 1 to 8.
    pub round: u8,
    /// Where the last ride is left.
    pub place: Place,
    /// The last ride.
    pub ride: Ride,
    /// The label from which the last ride was reached. There is none where it was reached from the origin.
    pub parent: Option<&'a Label<'a>>,
}

/// A triple of the answer, with the label of its last ride.
#[derive(Clone, Copy)]
pub struct Final<'a> {
    /// What the journey is judged by.
    pub triple: Triple,
    /// The label of the last ride.
    pub label: &'a Label<'a>,
}

/// The lesser of two deadlines.
pub(crate) fn earlier(a: Deadline, b: Deadline) -> Deadline
    ensures { result ≡ lesser a b }
{
    match (a, b) {
        (Deadline::Never, other) => other,
        (Deadline::At(first), Deadline::Never) => Deadline::At(first),
        (Deadline::At(first), Deadline::At(second)) => Deadline::At(first.min(second)),
    }
}

// Until when the rides up to the boarding can be booked.
fn deadline_so_far(boarding: &Boarding<'_>) -> Deadline
    ensures { result ≡ deadline_up_to boarding.now.parent }
{
    match boarding.parent {
        Some(parent) => parent.pair.deadline,
        None => Deadline::Never,
    }
}

/// What is carried to the boarding.
pub(crate) fn carried_by(boarding: &Boarding<'_>) -> Carried
    ensures { result ≡ carried_to boarding.now }
{
    Carried {
        deadline: deadline_so_far(boarding),
        walk: boarding.walk,
    }
}

/// The lesser one of the deadline and that of the rides up to the boarding.
pub(crate) fn deadline_with(boarding: &Boarding<'_>, deadline: Deadline) -> Deadline
    ensures { result ≡ lesser (deadline_up_to boarding.now.parent) deadline }
{
    match boarding.parent {
        Some(parent) => earlier(parent.pair.deadline, deadline),
        None => deadline,
    }
}

/// What the boarded label has become once the offered ride is left.
pub(crate) fn pair_after(boarding: &Boarding<'_>, offer: &Offer) -> Pair
    ensures { result ≡ made_pair boarding.now offer.now }
{
    Pair {
        deadline: deadline_with(boarding, offer.deadline),
        arrival: offer.ride.arrives,
        walk: boarding.walk,
    }
}

/// Makes the label of the offered ride after the boarding.
pub(crate) fn label_after<'a>(
    bump: &'a Bump<Global>,
    round: u8,
    boarding: &Boarding<'a>,
    offer: &Offer,
) -> Result<&'a Label<'a>, NoMemory>
    ensures { IfOk result (λ label. IsMade round boarding.now offer.now label.now) }
{
    let label = bump.try_alloc(Label {
        pair: pair_after(boarding, offer),
        round,
        place: offer.ride.alight,
        ride: offer.ride,
        parent: boarding.parent,
    })?;
    Ok(label)
}
