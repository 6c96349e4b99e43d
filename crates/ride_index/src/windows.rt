// Offers of rides from or to records with windows.

ghost use Rattle.std.specs.Prelude.{◌↔◌, ◌≡◌, ◌≤ℤ◌, ◌+ℤ◌, pos, IsTrue, OnOk};
ghost use Rattle.ride_index.specs.Legs.{IsLegRide, IsRowsLeg, IsRowsRide};
ghost use Rattle.ride_index.specs.Legs as Legs;
ghost use Rattle.ride_index.specs.OfferedRuns.{GainsOffersOf, IsSoundWanted};

use crate::legs::offer_of_leg;
use crate::offered_run::OfferedRun;
use crate::offers::{add_offer, may_alight};
use crate::wanted::Wanted;
use flex_model::{Moment, NoMemory, Ride, Timing};
use transfers::spans_from;

// The first second of a service day at which one may leave the record.
fn first_second(boarding: Timing) -> u32
    ensures { result ≡ Legs.first_second boarding }
{
    match boarding {
        Timing::Times { departs, .. } => departs,
        Timing::Window { start, .. } => start,
    }
}

// The last one.
fn last_second(boarding: Timing) -> u32
    ensures { result ≡ Legs.last_second boarding }
{
    match boarding {
        Timing::Times { departs, .. } => departs,
        Timing::Window { end, .. } => end,
    }
}

// Whether one may leave the record between the two moments, on a day that begins then.
pub(crate) fn may_leave(base: Moment, boarding: Timing, earliest: Moment, limit: Moment) -> bool
    requires low { pos 0 ≤ℤ (base +ℤ pos 100000) }
    requires high { base ≤ℤ pos 10000000000 }
    ensures { IsTrue result ↔ ((earliest ≤ℤ (base +ℤ pos (Legs.last_second boarding)))
        × ((base +ℤ pos (Legs.first_second boarding)) ≤ℤ limit)) }
{
    let last = base + i64::from(last_second(boarding));
    if last < earliest {
        return false;
    }
    let first = base + i64::from(first_second(boarding));
    if limit < first {
        return false;
    }
    true
}

// Adds the offer of the leg, where one may want to alight at its place.
fn add_offer_to_place(
    wanted: &Wanted<'_>,
    leg: &Ride,
    into: &mut Vec<OfferedRun>,
) -> Result<(), NoMemory>
    requires wanted { IsSoundWanted wanted.now }
    requires leg { IsRowsLeg wanted.now leg.now }
    ensures { OnOk result (GainsOffersOf (IsLegRide wanted.now leg.now)
        into.old.items into.new.items) }
{
    if !may_alight(leg.alight, wanted.destination) {
        return Ok(());
    }
    add_offer(offer_of_leg(wanted, leg), into)?;
    Ok(())
}

// Adds the offers of rides of the day between the two records of the leg, of which one has a window,
// to all places to which there is a direct time.
pub(crate) fn add_offers_to_row(
    wanted: &Wanted<'_>,
    leg: &Ride,
    into: &mut Vec<OfferedRun>,
) -> Result<(), NoMemory>
    requires wanted { IsSoundWanted wanted.now }
    requires leg { IsRowsLeg wanted.now leg.now }
    ensures { OnOk result (GainsOffersOf (IsRowsRide wanted.now leg.now)
        into.old.items into.new.items) }
{
    let spans = spans_from(wanted.times.direct.as_slice(), wanted.place);
    for span in spans {
        let leg = Ride {
            alight: span.to,
            ..*leg
        };
        add_offer_to_place(wanted, &leg, into)?;
    }
    Ok(())
}
