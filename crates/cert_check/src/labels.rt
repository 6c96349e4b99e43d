// The labels of a part in one list, and which of them stand at a place.

ghost use Rattle.std.specs.Prelude.{◌≡◌, ◌↔◌, ◌++◌, ◌≤◌, Contains, IfOk, IsPermutation, OnOk, false, length, map, true};
ghost use Rattle.std.specs.List.Sorted.{IsPartitionPoint};
ghost use Rattle.cert_check.specs.Labels.{in_round, labels_from};
ghost use Rattle.cert_check.specs.Places as Places;
ghost use Rattle.cert_check.specs.Tasks.{AreByPlace};

use bound_cert::{CertLabel, CertRound};
use flex_model::{NoMemory, Place};
use std::alloc::Global;

/// A label of a part with its round, which counts from 1.
#[derive(Clone, Copy, Debug, PartialEq, Eq)]
pub struct RoundLabel {
    /// How many rides lead to it.
    pub round: u64,
    /// The label.
    pub label: CertLabel,
}

// Adds the labels of a round.
fn add_round(labels: &[CertLabel], round: u64, into: &mut Vec<RoundLabel>) -> Result<(), NoMemory>
    ensures { OnOk result
        (into.new.items ≡ into.old.items ++ map (in_round round) labels.now) }
{
    for i in 0..labels.len() {
        into.push(RoundLabel {
            round,
            label: labels[i],
        })?;
    }
    Ok(())
}

/// The labels of the rounds, those of the first round first, each with its round.
pub(crate) fn labels_of(alloc: Global, rounds: &[CertRound]) -> Result<Vec<RoundLabel>, NoMemory>
    ensures { IfOk result (λ labels. labels.items ≡ labels_from 1 rounds.now) }
{
    let mut labels = Vec::new(alloc);
    for i in 0..rounds.len() {
        add_round(rounds[i].labels.as_slice(), i as u64 + 1, &mut labels)?;
    }
    Ok(labels)
}

/// The labels in the order of their places.
pub(crate) fn by_place(labels: Vec<RoundLabel>) -> Result<Vec<RoundLabel>, NoMemory>
    ensures moved { IfOk result (λ sorted. IsPermutation labels.items sorted.items) }
    ensures sorted { IfOk result (λ sorted. AreByPlace sorted.items) }
{
    let mut labels = labels;
    labels.sort_by(|a, b| a.label.place.cmp(&b.label.place))?;
    Ok(labels)
}

// Whether the label stands at an earlier place.
fn stands_before(label: &RoundLabel, place: Place) -> bool
    ensures { result ≡ Places.stands_before place label.now }
{
    label.label.place < place
}

// Whether the label stands at the place or an earlier one.
fn stands_by(label: &RoundLabel, place: Place) -> bool
    ensures { result ≡ Places.stands_by place label.now }
{
    label.label.place <= place
}

// How many labels stand at an earlier place.
fn count_before(labels: &[RoundLabel], place: Place) -> usize
    requires { AreByPlace labels.now }
    ensures bound { result ≤ length labels.now }
    ensures point { IsPartitionPoint (λ label. Places.stands_before place label ≡ true)
        (λ label. Places.stands_before place label ≡ false) labels.now result }
{
    labels.partition_point(move |label| stands_before(label, place))
}

// How many labels stand at the place or an earlier one, where it is known how many stand before it.
// Few stand at one place, so the others are gone through.
fn count_by(labels: &[RoundLabel], place: Place, before: usize) -> usize
    requires order { AreByPlace labels.now }
    requires low { before ≤ length labels.now }
    requires known { IsPartitionPoint (λ label. Places.stands_before place label ≡ true)
        (λ label. Places.stands_before place label ≡ false) labels.now before }
    ensures from { before ≤ result }
    ensures bound { result ≤ length labels.now }
    ensures point { IsPartitionPoint (λ label. Places.stands_by place label ≡ true)
        (λ label. Places.stands_by place label ≡ false) labels.now result }
{
    for at in before..labels.len() {
        if !stands_by(&labels[at], place) {
            return at;
        }
    }
    labels.len()
}

/// The labels that stand at the place, of those in the order of their places.
pub(crate) fn labels_at(labels: &[RoundLabel], place: Place) -> &[RoundLabel]
    requires { AreByPlace labels.now }
    ensures { (label : RoundLabel) → Contains result.now label
        ↔ (Contains labels.now label × (label.label.place ≡ place)) }
{
    let start = count_before(labels, place);
    let end = count_by(labels, place, start);
    &labels[start..end]
}
