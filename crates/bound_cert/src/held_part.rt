// What the types of a part of a certificate keep: its id is UTF-8, walks and starts have 32 bits.

ghost use Rattle.std.specs.Prelude.{◌^◌, ◌<◌, All, IfSome};
ghost use Rattle.bound_cert.specs.HeldCert.{IsHeldAnswer, IsHeldLabel, IsHeldPart, IsHeldRide};
ghost use Rattle.bound_cert.specs.HeldCert.{IsHeldRound};

use crate::cert::{CertLabel, CertPart, CertRound};
use flex_model::{Answer, Ride, Triple};

fn look_at_ride(ride: &Ride)
    ensures { IsHeldRide ride.now }
{
    if let Some(start) = ride.start {
        let _start: u32 = start;
    }
}

fn look_at_rides(rides: &[Ride])
    ensures { All IsHeldRide rides.now }
{
    for i in 0..rides.len() {
        look_at_ride(&rides[i]);
    }
}

fn walk_of(triple: &Triple) -> u32
    ensures { triple.now.walk < 2 ^ 32 }
{
    triple.walk
}

fn look_at_answer(answer: &Answer)
    ensures { IsHeldAnswer answer.now }
{
    let _walk = walk_of(&answer.triple);
    look_at_rides(answer.rides.as_slice());
}

fn look_at_answers(answers: &[Answer])
    ensures { All IsHeldAnswer answers.now }
{
    for i in 0..answers.len() {
        look_at_answer(&answers[i]);
    }
}

fn look_at_label(label: &CertLabel)
    ensures { IsHeldLabel label.now }
{
    let _walk: u32 = label.walk;
}

fn look_at_labels(labels: &[CertLabel])
    ensures { All IsHeldLabel labels.now }
{
    for i in 0..labels.len() {
        look_at_label(&labels[i]);
    }
}

fn look_at_rounds(rounds: &[CertRound])
    ensures { All IsHeldRound rounds.now }
{
    for i in 0..rounds.len() {
        look_at_labels(rounds[i].labels.as_slice());
    }
}

/// Looks at each id, walk and start of a part once: its id is UTF-8, and walks and starts have 32
/// bits, as in every part that is read.
pub fn look_at_part(part: &CertPart)
    ensures { IsHeldPart part.now }
{
    let _id = part.query.as_str();
    look_at_answers(part.answers.as_slice());
    look_at_rounds(part.rounds.as_slice());
}
