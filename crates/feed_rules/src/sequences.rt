// The records of trips by their stop_sequence.

ghost use Rattle.std.specs.Prelude.{◌≡◌, ◌∷◌, ◌++◌, [], List, IfOk, OnOk, is_some};
ghost use Rattle.std.specs.List.{list_any};
ghost use Rattle.std.specs.Option.{option_map};
ghost use Rattle.feed_meaning.specs.FeedLinks.{departure, is_before, nearest_before};
ghost use Rattle.feed_meaning.specs.FeedRules.{sequence};
ghost use Rattle.feed_meaning.specs.Rules.{Values};
ghost use Rattle.feed_rules.specs.Sequences.{HoldsFirst};

use flex_model::NoMemory;
use std::collections::BTreeMap;
use std::ops::Bound;

/// Notes the departure of a record, unless one with the same trip and stop_sequence was noted before.
pub(crate) fn note_first<'a>(
    order: &mut BTreeMap<(&'a str, u32), Option<u32>>,
    trip: &'a str,
    number: Option<u32>,
    departs: Option<u32>,
) -> Result<(), NoMemory>
    ensures { OnOk result ((records : List Values) (r : Values) → HoldsFirst order.old records
        → trip.now ≡ r "trip_id"
        → number ≡ sequence (r "stop_sequence") → departs ≡ departure r
        → HoldsFirst order.new (records ++ r ∷ [])) }
{
    let Some(number) = number else {
        return Ok(());
    };
    if order.contains_key(&(trip, number)) {
        return Ok(());
    }
    order.insert((trip, number), departs)?;
    Ok(())
}

/// The departure of the nearest record before this one in its trip, where there is such a record.
pub(crate) fn last_before<'a>(
    order: &BTreeMap<(&'a str, u32), Option<u32>>,
    trip: &'a str,
    number: Option<u32>,
) -> Option<Option<u32>>
    ensures nearest { (records : List Values) (r : Values) → HoldsFirst order.now records
        → trip.now ≡ r "trip_id"
        → number ≡ sequence (r "stop_sequence")
        → result ≡ option_map departure (nearest_before records r) }
    ensures some { (records : List Values) (r : Values) → HoldsFirst order.now records
        → trip.now ≡ r "trip_id"
        → number ≡ sequence (r "stop_sequence")
        → is_some result ≡ list_any (λ s. is_before s r) records }
{
    let Some(number) = number else {
        return None;
    };
    let Some((_, departs)) = order.range((trip, 0)..(trip, number)).next_back() else {
        return None;
    };
    Some(*departs)
}

/// Whether there is a record after this one in its trip.
pub(crate) fn has_after<'a>(
    order: &BTreeMap<(&'a str, u32), Option<u32>>,
    trip: &'a str,
    number: Option<u32>,
) -> bool
    ensures { (records : List Values) (r : Values) → HoldsFirst order.now records
        → trip.now ≡ r "trip_id"
        → number ≡ sequence (r "stop_sequence") → result ≡ list_any (λ s. is_before r s) records }
{
    let Some(number) = number else {
        return false;
    };
    let after = (
        Bound::Excluded((trip, number)),
        Bound::Included((trip, u32::MAX)),
    );
    order.range(after).next_back().is_some()
}
