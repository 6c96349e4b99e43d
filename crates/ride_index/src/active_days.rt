// On which travel days services are active.

ghost use Rattle.std.specs.Prelude.{◌≡◌, ◌↔◌, ◌++◌, ◌+◌, ◌<◌, ◌+ℤ◌, ◌≤ℤ◌, ℕ, pos, IfOk, IsTrue, OnOk, Some, length};
ghost use Rattle.flex_model.specs.SoundQuery.{IsSoundDayTable};
ghost use Rattle.service_days.specs.Running.{IsRunning};
ghost use Rattle.ride_index.specs.ActiveDays.{AreActiveDays, active_flags};

use flex_model::limits::TRAVEL_DAYS;
use flex_model::{DayTable, Feed, Listed, NoMemory, Service, Trip};
use service_days::{active, first_travel_day};
use std::alloc::Global;

/// On which of a query's 22 travel days each service of a feed is active. It is made once a query, so that the dates of a
/// service aren't gone through again for each of its trips.
#[derive(Debug, Drop)]
pub struct ActiveDays {
    // For each service 22 flags, one a travel day.
    flags: Listed<bool>,
}

// The day that is so many days after the other.
pub(crate) fn day_after(first: i32, ahead: u32) -> i32
    requires first { first ≤ℤ pos 200000 }
    requires ahead { ahead < 22 }
    ensures { result ≡ first +ℤ pos ahead }
{
    first + ahead as i32
}

// Adds whether the service is active on the 22 days from the first on.
fn add_flags(service: &Service, first: i32, flags: &mut Vec<bool>) -> Result<(), NoMemory>
    requires { first ≤ℤ pos 200000 }
    ensures { OnOk result
        (flags.new.items ≡ flags.old.items ++ active_flags service.now first 22) }
{
    for ahead in 0..22_u32 {
        flags.push(active(service, day_after(first, ahead)))?;
    }
    Ok(())
}

// Which of the table's travel days the day is, counted from 0.
fn travel_number(days: &DayTable, day: i32) -> Option<usize>
    ensures { (k : ℕ) → (result ≡ Some k)
        ↔ ((k < 22) × (day ≡ days.now.first +ℤ pos (1504 + k))) }
{
    let ahead = i64::from(day) - i64::from(days.first) - 1504;
    if ahead < 0 || 22 <= ahead {
        return None;
    }
    Some(ahead as usize)
}

impl ActiveDays {
    /// The table of a query, by its day table.
    pub fn build(alloc: Global, feed: &Feed, days: &DayTable) -> Result<ActiveDays, NoMemory>
        requires { IsSoundDayTable days.now }
        ensures { IfOk result (AreActiveDays feed.now days.now) }
    {
        let first = first_travel_day(days);
        let services = feed.services.as_slice();
        let mut flags = Vec::new(alloc);
        for s in 0..services.len() {
            add_flags(&services[s], first, &mut flags)?;
        }
        Ok(ActiveDays {
            flags: Listed::from_vec(flags),
        })
    }

    /// Whether rides of the trip may run on the day, without memory: it is a travel day, and the trip's service is active
    /// on it.
    pub fn is_running(&self, feed: &Feed, days: &DayTable, trip: &Trip, day: i32) -> bool
        requires table { AreActiveDays feed.now days.now self.now }
        requires days { IsSoundDayTable days.now }
        requires service { trip.now.service < length feed.now.services }
        ensures { IsTrue result ↔ IsRunning feed.now days.now trip.now day }
    {
        let Some(ahead) = travel_number(days, day) else {
            return false;
        };
        self.flags[TRAVEL_DAYS * trip.service as usize + ahead]
    }
}
