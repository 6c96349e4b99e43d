// The offers from a place.

ghost use Rattle.std.specs.Prelude.{◌≡◌, ◌<◌, ◌++◌, ◌∷◌, [], ℕ, Contains, OnOk, length};
ghost use Rattle.flex_model.specs.declared.trip.Spot.TheVariants as spot;
ghost use Rattle.ride_index.specs.Boarded.{AreOfferedAfter, GainsOffersBut, IsCoveredBefore, point_of};
ghost use Rattle.ride_index.specs.Index.{IsIndexOf};
ghost use Rattle.ride_index.specs.Legs.{BoardsFrom, IsTimedOffer, IsWindowRide};
ghost use Rattle.ride_index.specs.OfferedRuns.{AreOfferedFrom, GainsOffersOf, IsSoundWanted};
ghost use Rattle.ride_index.specs.declared.members.Member.{Member};

use crate::boarded::{Boarded, BoardingPoint, Carried};
use crate::boardings::add_offers_at;
use crate::index::RideIndex;
use crate::members::Member;
use crate::offered_run::OfferedRun;
use crate::offers::add_offers_of_rides;
use crate::stop_rides::add_timed_rides;
use crate::wanted::Wanted;
use flex_model::{Deadline, NoMemory, Place, Spot};
use std::alloc::Global;
use zone_test::serves;

// Adds the offers of rides between records with times, but for some that an earlier point covers.
fn add_timed_offers(
    alloc: Global,
    index: &RideIndex,
    wanted: &Wanted<'_>,
    carried: &Carried,
    boarded: &mut Boarded,
    into: &mut Vec<OfferedRun>,
) -> Result<(), NoMemory>
    requires index { IsIndexOf wanted.now.feed.now index.now }
    requires wanted { IsSoundWanted wanted.now }
    ensures points { boarded.new.0 ≡ boarded.old.0 }
    ensures offers { OnOk result (GainsOffersBut (IsTimedOffer wanted.now)
        (IsCoveredBefore wanted.now boarded.old.0 carried.now) into.old.items into.new.items) }
{
    let Place::Stop(stop) = wanted.place else {
        return Ok(());
    };
    let mut rides = Vec::new(alloc);
    add_timed_rides(
        index,
        wanted.feed,
        wanted.days,
        wanted.active,
        stop,
        wanted.earliest,
        wanted.limit,
        carried,
        boarded,
        &mut rides,
    )?;
    add_offers_of_rides(wanted, rides.as_slice(), into)?;
    Ok(())
}

// Adds the offers of rides from or to a window that board at a record that names a stop.
fn add_stop_offers(
    index: &RideIndex,
    wanted: &Wanted<'_>,
    into: &mut Vec<OfferedRun>,
) -> Result<(), NoMemory>
    requires index { IsIndexOf wanted.now.feed.now index.now }
    requires wanted { IsSoundWanted wanted.now }
    ensures { OnOk result (GainsOffersOf (λ ride deadline. IsWindowRide wanted.now ride deadline
        × ((s : ℕ) × BoardsFrom wanted.now.feed.now (spot.Stop s) ride))
        into.old.items into.new.items) }
{
    let Place::Stop(stop) = wanted.place else {
        return Ok(());
    };
    add_offers_at(wanted, &index.beside_windows, stop, into)?;
    add_offers_at(wanted, &index.stop_windows, stop, into)?;
    Ok(())
}

// Adds the offers of rides from or to a window that board at a record that names the group.
fn add_offers_of_group(
    index: &RideIndex,
    wanted: &Wanted<'_>,
    group: u32,
    into: &mut Vec<OfferedRun>,
) -> Result<(), NoMemory>
    requires index { IsIndexOf wanted.now.feed.now index.now }
    requires wanted { IsSoundWanted wanted.now }
    ensures { OnOk result (GainsOffersOf (λ ride deadline. IsWindowRide wanted.now ride deadline
        × BoardsFrom wanted.now.feed.now (spot.Group group) ride)
        into.old.items into.new.items) }
{
    if !serves(wanted.feed, wanted.times, Spot::Group(group), wanted.place) {
        return Ok(());
    }
    add_offers_at(wanted, &index.group_windows, group, into)?;
    Ok(())
}

// The same for a zone.
fn add_offers_of_zone(
    index: &RideIndex,
    wanted: &Wanted<'_>,
    zone: u32,
    into: &mut Vec<OfferedRun>,
) -> Result<(), NoMemory>
    requires index { IsIndexOf wanted.now.feed.now index.now }
    requires wanted { IsSoundWanted wanted.now }
    ensures { OnOk result (GainsOffersOf (λ ride deadline. IsWindowRide wanted.now ride deadline
        × BoardsFrom wanted.now.feed.now (spot.Zone zone) ride)
        into.old.items into.new.items) }
{
    if !serves(wanted.feed, wanted.times, Spot::Zone(zone), wanted.place) {
        return Ok(());
    }
    add_offers_at(wanted, &index.zone_windows, zone, into)?;
    Ok(())
}

// The same for these groups.
fn add_offers_of_groups(
    index: &RideIndex,
    wanted: &Wanted<'_>,
    members: &[Member],
    into: &mut Vec<OfferedRun>,
) -> Result<(), NoMemory>
    requires index { IsIndexOf wanted.now.feed.now index.now }
    requires wanted { IsSoundWanted wanted.now }
    ensures { OnOk result (GainsOffersOf (λ ride deadline. IsWindowRide wanted.now ride deadline
        × ((m : Member) × Contains members.now m
        × BoardsFrom wanted.now.feed.now (spot.Group m.named) ride))
        into.old.items into.new.items) }
{
    for member in members {
        add_offers_of_group(index, wanted, member.named, into)?;
    }
    Ok(())
}

// The same for all groups. They serve stops alone, and a stop only those that have it.
fn add_group_offers(
    index: &RideIndex,
    wanted: &Wanted<'_>,
    into: &mut Vec<OfferedRun>,
) -> Result<(), NoMemory>
    requires index { IsIndexOf wanted.now.feed.now index.now }
    requires wanted { IsSoundWanted wanted.now }
    ensures { OnOk result (GainsOffersOf (λ ride deadline. IsWindowRide wanted.now ride deadline
        × ((g : ℕ) × (g < length wanted.now.feed.now.groups)
        × BoardsFrom wanted.now.feed.now (spot.Group g) ride))
        into.old.items into.new.items) }
{
    let Place::Stop(stop) = wanted.place else {
        return Ok(());
    };
    add_offers_of_groups(index, wanted, index.group_members.at(stop), into)?;
    Ok(())
}

// The same for these zones.
fn add_offers_of_zones(
    index: &RideIndex,
    wanted: &Wanted<'_>,
    members: &[Member],
    into: &mut Vec<OfferedRun>,
) -> Result<(), NoMemory>
    requires index { IsIndexOf wanted.now.feed.now index.now }
    requires wanted { IsSoundWanted wanted.now }
    ensures { OnOk result (GainsOffersOf (λ ride deadline. IsWindowRide wanted.now ride deadline
        × ((m : Member) × Contains members.now m
        × BoardsFrom wanted.now.feed.now (spot.Zone m.named) ride))
        into.old.items into.new.items) }
{
    for member in members {
        add_offers_of_zone(index, wanted, member.named, into)?;
    }
    Ok(())
}

// The same for all zones, each of which is tried.
fn add_offers_of_each_zone(
    index: &RideIndex,
    wanted: &Wanted<'_>,
    into: &mut Vec<OfferedRun>,
) -> Result<(), NoMemory>
    requires index { IsIndexOf wanted.now.feed.now index.now }
    requires wanted { IsSoundWanted wanted.now }
    ensures { OnOk result (GainsOffersOf (λ ride deadline. IsWindowRide wanted.now ride deadline
        × ((z : ℕ) × (z < length wanted.now.feed.now.zones)
        × BoardsFrom wanted.now.feed.now (spot.Zone z) ride))
        into.old.items into.new.items) }
{
    for zone in 0..wanted.feed.zones.len() {
        add_offers_of_zone(index, wanted, zone as u32, into)?;
    }
    Ok(())
}

// The same for all zones: those that have the stop, or where the place is a point any of them.
fn add_zone_offers(
    index: &RideIndex,
    wanted: &Wanted<'_>,
    into: &mut Vec<OfferedRun>,
) -> Result<(), NoMemory>
    requires index { IsIndexOf wanted.now.feed.now index.now }
    requires wanted { IsSoundWanted wanted.now }
    ensures { OnOk result (GainsOffersOf (λ ride deadline. IsWindowRide wanted.now ride deadline
        × ((z : ℕ) × (z < length wanted.now.feed.now.zones)
        × BoardsFrom wanted.now.feed.now (spot.Zone z) ride))
        into.old.items into.new.items) }
{
    let Place::Stop(stop) = wanted.place else {
        add_offers_of_each_zone(index, wanted, into)?;
        return Ok(());
    };
    add_offers_of_zones(index, wanted, index.zone_members.at(stop), into)?;
    Ok(())
}

/// Puts runs that are offered from the place into the list, in place of what it held: rides from the
/// place alone that leave at the moment or later, arrive by the limit, can be booked when asked, and
/// alight at a stop or at the destination, each with its deadline. Each such ride is covered: a ride
/// of a run, or one that is wanted from a point that was boarded before with no earlier a deadline and
/// no longer a walk, alights at the same place, can be booked no less late and arrives no later. The
/// place becomes one of these points: its rides are held before this is called again.
pub fn offers_after(
    alloc: Global,
    index: &RideIndex,
    wanted: &Wanted<'_>,
    carried: &Carried,
    boarded: &mut Boarded,
    into: &mut Vec<OfferedRun>,
) -> Result<(), NoMemory>
    requires index { IsIndexOf wanted.now.feed.now index.now }
    requires wanted { IsSoundWanted wanted.now }
    ensures points { OnOk result
        (boarded.new.0 ≡ boarded.old.0 ++ point_of wanted.now carried.now ∷ []) }
    ensures offers { OnOk result
        (AreOfferedAfter wanted.now boarded.old.0 carried.now into.new.items) }
{
    into.clear();
    add_timed_offers(alloc, index, wanted, carried, boarded, into)?;
    add_stop_offers(index, wanted, into)?;
    add_group_offers(index, wanted, into)?;
    add_zone_offers(index, wanted, into)?;
    boarded.add(BoardingPoint {
        place: wanted.place,
        earliest: wanted.earliest,
        carried: *carried,
    })?;
    Ok(())
}

/// The same where nothing was boarded before: for each such ride one of the list alights at the same place, can be booked no
/// less late and arrives no later.
pub fn offers_from(
    alloc: Global,
    index: &RideIndex,
    wanted: &Wanted<'_>,
    into: &mut Vec<OfferedRun>,
) -> Result<(), NoMemory>
    requires index { IsIndexOf wanted.now.feed.now index.now }
    requires wanted { IsSoundWanted wanted.now }
    ensures { OnOk result (AreOfferedFrom wanted.now into.new.items) }
{
    let mut boarded = Boarded::new(alloc, 0)?;
    let carried = Carried {
        deadline: Deadline::Never,
        walk: 0,
    };
    offers_after(alloc, index, wanted, &carried, &mut boarded, into)?;
    Ok(())
}
