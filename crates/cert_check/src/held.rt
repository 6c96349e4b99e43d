// Which pairs are held at a place, by labels or by answers.

ghost use Rattle.std.specs.Prelude.{◌↔◌, ◌≡◌, IsTrue};
ghost use Rattle.flex_model.specs.Answer.{triples};
ghost use Rattle.flex_model.specs.LabelTable.{IsHeldByTriple, pair_of};
ghost use Rattle.flex_model.specs.Triple.{CoversPair, pair_of_triple};
ghost use Rattle.bound_cert.specs.Parts.{told_label};
ghost use Rattle.cert_check.specs.Labels.{IsAmong, IsHeldAmong};
ghost use Rattle.cert_check.specs.Tasks.{AreByPlace, AreLookupsOf, IsHeldIn, pair_of_made};

use crate::labels::{RoundLabel, labels_at};
use crate::made::Made;
use crate::task::{Lookups, Task};
use bound_cert::CertLabel;
use flex_model::{Answer, Place, Triple};

// Whether the label covers the pair.
fn label_covers(label: &CertLabel, made: &Made) -> bool
    ensures { IsTrue result ↔ CoversPair (pair_of (told_label label.now)) (pair_of_made made.now) }
{
    label.deadline >= made.deadline
        && label.arrival <= made.arrival
        && u64::from(label.walk) <= made.walk
}

// Whether the triple covers the pair.
fn triple_covers(triple: &Triple, made: &Made) -> bool
    ensures { IsTrue result ↔ CoversPair (pair_of_triple triple.now) (pair_of_made made.now) }
{
    triple.deadline >= made.deadline
        && triple.arrival <= made.arrival
        && u64::from(triple.walk) <= made.walk
}

// Whether a label of the slice, of a round up to this one, covers the pair.
fn is_any(labels: &[RoundLabel], made: &Made, round: u64) -> bool
    ensures { IsTrue result ↔ IsAmong labels.now (pair_of_made made.now) round }
{
    for i in 0..labels.len() {
        let label = labels[i];
        if label.round <= round && label_covers(&label.label, made) {
            return true;
        }
    }
    false
}

// Whether a label of the place in a round up to this one covers the pair.
fn is_held_by_label(labels: &[RoundLabel], place: Place, made: &Made, round: u64) -> bool
    requires { AreByPlace labels.now }
    ensures { IsTrue result ↔ IsHeldAmong labels.now place (pair_of_made made.now) round }
{
    is_any(labels_at(labels, place), made, round)
}

/// Whether the triple of an answer with fewer transfers than the round has rides covers the pair.
pub(crate) fn is_held_by_answer(answers: &[Answer], made: &Made, round: u64) -> bool
    ensures { IsTrue result
        ↔ IsHeldByTriple (triples answers.now) (pair_of_made made.now) round }
{
    for i in 0..answers.len() {
        let triple = answers[i].triple;
        if u64::from(triple.transfers) < round && triple_covers(&triple, made) {
            return true;
        }
    }
    false
}

/// Whether the pair is held at the place in the round.
pub(crate) fn is_held(
    task: &Task<'_>,
    lookups: &Lookups<'_>,
    place: Place,
    made: &Made,
    round: u64,
) -> bool
    requires { AreLookupsOf task.now lookups.now }
    ensures { IsTrue result ↔ IsHeldIn task.now place (pair_of_made made.now) round }
{
    // Answers are few, and cover most rides that arrive late.
    is_held_by_answer(task.part.answers.as_slice(), made, round)
        || is_held_by_label(lookups.labels, place, made, round)
}
