// Offers of single rides.

ghost use Rattle.std.specs.Prelude.{◌≡◌, ◌↔◌, ◌⊎◌, ◌++◌, OnOk, Contains, IfNone, IfSome, IsTrue};
ghost use Rattle.std.specs.Prelude.{option_to_list};
ghost use Rattle.flex_model.specs.declared.ride.Ride.{Ride};
ghost use Rattle.flex_model.specs.Booking.{IsBookable, IsDeadline};
ghost use Rattle.flex_model.specs.Place.{IsStop};
ghost use Rattle.ride_index.specs.OfferedRuns.{AreOffersOf, GainsOffersOf, IsReachable, IsSoundWanted, IsWantedRide};

use crate::offered_run::OfferedRun;
use crate::wanted::Wanted;
use booking_rules::bookable;
use flex_model::{Deadline, NoMemory, Place, Ride};

// Adds the run, if there is one.
pub(crate) fn add_offer(
    offer: Option<OfferedRun>,
    into: &mut Vec<OfferedRun>,
) -> Result<(), NoMemory>
    ensures { OnOk result (into.new.items ≡ into.old.items ++ option_to_list offer) }
{
    let Some(offer) = offer else {
        return Ok(());
    };
    into.push(offer)?;
    Ok(())
}

// Whether one may want to alight at the place: it is a stop, or the destination.
pub(crate) fn may_alight(place: Place, destination: Place) -> bool
    ensures { IsTrue result ↔ (IsStop place ⊎ (place ≡ destination)) }
{
    match place {
        Place::Stop(_) => true,
        Place::Point(_) => place == destination,
    }
}

// Until when the ride can be booked, if it can be.
pub(crate) fn deadline_of(wanted: &Wanted<'_>, ride: &Ride) -> Option<Deadline>
    requires wanted { IsSoundWanted wanted.now }
    requires reachable { IsReachable wanted.now ride.now }
    ensures booked { IfSome result (λ deadline.
        IsBookable wanted.now.feed.now wanted.now.days.now ride.now wanted.now.asked
        × IsDeadline wanted.now.feed.now wanted.now.days.now ride.now deadline) }
    ensures refused { IfNone result
        (IsBookable wanted.now.feed.now wanted.now.days.now ride.now wanted.now.asked → ⊥) }
{
    bookable(wanted.feed, wanted.days, ride, wanted.asked)
}

// The offer of a permitted ride, where it is wanted.
fn offer_of_ride(wanted: &Wanted<'_>, ride: &Ride) -> Option<OfferedRun>
    requires wanted { IsSoundWanted wanted.now }
    requires reachable { IsReachable wanted.now ride.now }
    ensures { AreOffersOf (λ x deadline. IsWantedRide wanted.now x deadline × (x ≡ ride.now))
        (option_to_list result) }
{
    if !may_alight(ride.alight, wanted.destination) {
        return None;
    }
    let Some(deadline) = deadline_of(wanted, ride) else {
        return None;
    };
    Some(OfferedRun {
        ride: *ride,
        count: 1,
        closes: deadline,
        latest: deadline,
    })
}

// Adds the offers of those of the permitted rides that are wanted.
pub(crate) fn add_offers_of_rides(
    wanted: &Wanted<'_>,
    rides: &[Ride],
    into: &mut Vec<OfferedRun>,
) -> Result<(), NoMemory>
    requires wanted { IsSoundWanted wanted.now }
    requires rides { (ride : Ride) → Contains rides.now ride → IsReachable wanted.now ride }
    ensures { OnOk result (GainsOffersOf
        (λ x deadline. IsWantedRide wanted.now x deadline × Contains rides.now x)
        into.old.items into.new.items) }
{
    for ride in rides {
        add_offer(offer_of_ride(wanted, ride), into)?;
    }
    Ok(())
}
