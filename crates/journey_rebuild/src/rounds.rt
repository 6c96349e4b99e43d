// The labels of a search, as a certificate tells them.

ghost use Rattle.std.specs.Prelude.{◌≡◌, ◌++◌, ◌+◌, ◌-◌, ◌<◌, ◌≤◌, ◌^◌, ℕ, All, IfOk, OnOk, length, map};
ghost use Rattle.bound_cert.specs.Parts.{told_label};
ghost use Rattle.label_bag.specs.Bag.{IsBag};
ghost use Rattle.round_engine.specs.Attained.{number_of};
ghost use Rattle.round_engine.specs.Bags.{bag_at, round_at};
ghost use Rattle.round_engine.specs.Flat.{label_of, labels_in};
ghost use Rattle.journey_rebuild.specs.Rounds.{AreBagsOf, are_told};

use bound_cert::{CertLabel, CertRound};
use flex_model::{Listed, NoMemory, Pair, Place};
use round_engine::{Label, RoundTable};
use std::alloc::Global;

// The label of an entry.
fn cert_label(entry: &(Pair, &Label<'_>)) -> CertLabel
    ensures { told_label result ≡ label_of entry.now }
{
    CertLabel {
        place: entry.1.place,
        deadline: entry.0.deadline,
        arrival: entry.0.arrival,
        walk: entry.0.walk,
    }
}

// Adds the labels of a bag.
fn add_labels(entries: &[(Pair, &Label<'_>)], into: &mut Listed<CertLabel>) -> Result<(), NoMemory>
    ensures { OnOk result (map told_label into.new
        ≡ map told_label into.old ++ map label_of entries.now) }
{
    for entry in entries {
        into.push(cert_label(entry))?;
    }
    Ok(())
}

// The stop with this number, or a point for the number after the stops.
fn place_at(stops: usize, number: usize) -> Place
    requires few { stops < 2 ^ 32 }
    requires within { number ≤ stops }
    ensures { number_of stops result ≡ number }
{
    if number < stops {
        Place::Stop(number as u32)
    } else {
        Place::Point(0)
    }
}

// There are so few that they can be counted.
fn look_at_count(labels: &[CertLabel])
    ensures { length labels.now < 2 ^ 64 }
{
    let _count = labels.len();
}

// The labels of a round, place by place.
fn round_of(
    alloc: Global,
    table: &RoundTable<'_>,
    stops: usize,
    round: u8,
) -> Result<CertRound, NoMemory>
    requires few { stops < 2 ^ 32 }
    requires some { 0 < round }
    requires round { round ≤ length table.now.0 }
    requires width { length (round_at table.now.0 (round - 1)) ≡ stops + 1 }
    ensures labels { IfOk result (λ told. map told_label told.labels
        ≡ labels_in (round_at table.now.0 (round - 1))) }
    ensures bags { IfOk result (λ _. AreBagsOf (round_at table.now.0 (round - 1))) }
    ensures countable { IfOk result (λ told. length told.labels < 2 ^ 64) }
{
    let mut labels = Listed::new(alloc);
    for number in 0..stops + 1 {
        add_labels(table.labels(round, place_at(stops, number)), &mut labels)?;
    }
    look_at_count(labels.as_slice());
    Ok(CertRound { labels })
}

/// The labels of all rounds.
pub(crate) fn rounds_of(
    alloc: Global,
    table: &RoundTable<'_>,
    stops: usize,
    count: u8,
) -> Result<Listed<CertRound>, NoMemory>
    requires few { stops < 2 ^ 32 }
    requires count { length table.now.0 ≡ count }
    requires widths { All (λ these. length these ≡ stops + 1) table.now.0 }
    ensures rounds { IfOk result (λ rounds. are_told rounds ≡ map labels_in table.now.0) }
    ensures bags { IfOk result (λ _. (r : ℕ) → AreBagsOf (round_at table.now.0 r)) }
    ensures countable { IfOk result (All (λ round. length round.labels < 2 ^ 64)) }
{
    let mut rounds = Listed::new(alloc);
    for number in 0..count {
        rounds.push(round_of(alloc, table, stops, number + 1)?)?;
    }
    Ok(rounds)
}
