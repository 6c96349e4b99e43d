// Laws of the definitions alone: each function has an empty body, and its contract is the law.

ghost use Rattle.booking_rules.specs.Departures.{DeadlinesRiseToTheLatest, LaterRidesCanBeBooked};

/// A ride that can be booked can be booked too where it leaves later. This project's own.
pub fn later_rides_can_be_booked()
    ensures { LaterRidesCanBeBooked }
{}

/// The deadline of a ride rises as its departure does, up to a latest deadline, and is constant
/// from there. This project's own.
pub fn deadlines_rise_to_the_latest()
    ensures { DeadlinesRiseToTheLatest }
{}
