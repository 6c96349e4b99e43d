// Boardings of a round whose rides are held.

ghost use Rattle.std.specs.Prelude.{◌≡◌, ◌↔◌, ◌<◌, ◌++◌, ◌∷◌, [], ℕ, Option, IfOk, IsTrue, OnOk, Some, false, length, slice_get};
ghost use Rattle.flex_model.specs.declared.trip.Way.TheVariants.{Book};
ghost use Rattle.ride_index.specs.Boarded.{AreFreeAfter, CanBoard, IsAsGood, IsBoardedAt, IsNoted};
ghost use Rattle.ride_index.specs.TimedRides.{IsZero};

use crate::alightings::moment_after;
use crate::departure::Departure;
use flex_model::{Deadline, Moment, NoMemory, Place, Row, Spot, Timing, Way};
use std::alloc::Global;
use std::marker::Model;

/// What is carried to a boarding by the rides before it.
#[derive(Clone, Copy, Debug, PartialEq, Eq)]
pub struct Carried {
    /// Until when they can be booked.
    pub deadline: Deadline,
    /// How many seconds are walked up to the boarding, as far as walks count.
    pub walk: u32,
}

/// A place where one can board from a moment on, and what is carried there.
#[derive(Clone, Copy, Debug, PartialEq, Eq)]
pub struct BoardingPoint {
    /// The place.
    pub place: Place,
    /// From when on, in seconds since 1970-01-01T00:00:00Z.
    pub earliest: Moment,
    /// What is carried there.
    pub carried: Carried,
}

/// From which point a trip was boarded last, and at which record. It is a hint: what it says is tested where it is used.
#[derive(Clone, Copy, Debug, PartialEq, Eq)]
pub struct Note {
    /// The number of the point.
    pub point: usize,
    /// The number of the record.
    pub row: u32,
}

/// The points of a round from which all rides are held already, with notes on which trips they boarded. Contracts see the list
/// of points and that of notes. A trip and day share a note with others, the last of which is kept.
#[derive(Debug, Drop)]
pub struct Boarded {
    points: Vec<BoardingPoint>,
    notes: Vec<Note>,
}

impl Model for Boarded {
    ghost use Rattle.std.specs.Prelude.{List};
    ghost use Rattle.ride_index.specs.declared.boarded.BoardingPoint.{BoardingPoint};
    ghost use Rattle.ride_index.specs.declared.boarded.Note.{Note};

    ghost Value = { List BoardingPoint × List Note };

    ghost view = { λ boarded. (boarded.points.items, boarded.notes.items) };
}

// Whether the one can be booked no less late and walks no farther than the other.
fn is_as_good(a: &Carried, b: &Carried) -> bool
    ensures { IsTrue result ↔ IsAsGood a.now b.now }
{
    b.deadline <= a.deadline && a.walk <= b.walk
}

// Whether one can board at the record from the point without booking, where times of the trip count from the moment zero.
fn can_board(row: &Row, zero: Moment, point: &BoardingPoint) -> bool
    requires { IsZero zero }
    ensures { IsTrue result ↔ CanBoard row.now zero point.now }
{
    if row.pickup != Way::Free {
        return false;
    }
    let Spot::Stop(stop) = row.spot else {
        return false;
    };
    if point.place != Place::Stop(stop) {
        return false;
    }
    let Timing::Times { departs, .. } = row.timing else {
        return false;
    };
    point.earliest <= moment_after(zero, departs)
}

// Whether there has to be a booking.
fn is_booked(way: Way) -> bool
    ensures { IsTrue result ↔ ((rule : Option ℕ) × (way ≡ Book rule)) }
{
    match way {
        Way::Book(_) => true,
        _ => false,
    }
}

// Whether no drop-off after the record with this number has to be booked.
fn are_free_after(rows: &[Row], row: u32) -> bool
    ensures { IsTrue result ↔ AreFreeAfter rows.now row }
{
    for at in row as usize + 1..rows.len() {
        if is_booked(rows[at].drop_off) {
            return false;
        }
    }
    true
}

// Whether the point carries no less, and can be boarded at the one record, which is no later than the other, with nothing to
// be booked from there on.
fn is_boarded(
    point: &BoardingPoint,
    at: u32,
    carried: &Carried,
    rows: &[Row],
    row: u32,
    zero: Moment,
) -> bool
    requires row { row < length rows.now }
    requires zero { IsZero zero }
    ensures { IsTrue result ↔ IsBoardedAt rows.now at row zero point.now carried.now }
{
    if row < at {
        return false;
    }
    if !is_as_good(&point.carried, carried) {
        return false;
    }
    if !can_board(&rows[at as usize], zero, point) {
        return false;
    }
    are_free_after(rows, row)
}

// Which note is that of a trip and a day, where there are so many.
fn number_among(trip: u32, day: i32, count: usize) -> usize
    ensures { 0 < count → result < count }
{
    if count == 0 {
        return 0;
    }
    (22 * trip as usize + day.max(0) as usize) % count
}

impl Boarded {
    /// No points, with room for so many notes.
    pub fn new(alloc: Global, count: usize) -> Result<Boarded, NoMemory>
        ensures none { IfOk result (λ boarded. boarded.0 ≡ []) }
        ensures room { IfOk result (λ boarded. length boarded.1 ≡ count) }
    {
        Ok(Boarded {
            points: Vec::new(alloc),
            notes: Vec::from_elem(alloc, Note { point: 0, row: 0 }, count)?,
        })
    }

    /// Adds a point from which all rides are held.
    pub fn add(&mut self, point: BoardingPoint) -> Result<(), NoMemory>
        ensures { OnOk result (self.new.0 ≡ self.old.0 ++ point ∷ []) }
    {
        self.points.push(point)?;
        Ok(())
    }

    fn point(&self, number: usize) -> Option<BoardingPoint>
        ensures { result ≡ slice_get self.now.0 number }
    {
        if self.points.len() <= number {
            return None;
        }
        Some(self.points[number])
    }

    fn note(&self, number: usize) -> Option<Note>
        ensures { result ≡ slice_get self.now.1 number }
    {
        if self.notes.len() <= number {
            return None;
        }
        Some(self.notes[number])
    }

    // Puts the note in place of the one with this number.
    fn put(&mut self, number: usize, note: Note)
        ensures points { self.new.0 ≡ self.old.0 }
        ensures found { number < length self.old.1 → slice_get self.new.1 number ≡ Some note }
    {
        if self.notes.len() <= number {
            return;
        }
        self.notes[number] = note;
    }

    // Whether the note with this number tells that nothing new is reached from the record.
    fn has_boarded(
        &self,
        number: usize,
        carried: &Carried,
        rows: &[Row],
        row: u32,
        zero: Moment,
    ) -> bool
        requires row { row < length rows.now }
        requires zero { IsZero zero }
        ensures { IsTrue result ↔ IsNoted self.now number rows.now row zero carried.now }
    {
        let Some(note) = self.note(number) else {
            return false;
        };
        let Some(point) = self.point(note.point) else {
            return false;
        };
        is_boarded(&point, note.row, carried, rows, row, zero)
    }

    /// Which note is that of the trip and the day.
    pub(crate) fn number_of(&self, trip: u32, day: i32) -> usize
        ensures { 0 < length self.now.1 → result < length self.now.1 }
    {
        number_among(trip, day, self.notes.len())
    }

    /// Whether the note with this number tells of an earlier point that carries no less, and that boards the trip at the
    /// departure's record or before, with nothing to be booked. If not, it then tells that the trip is boarded here.
    pub(crate) fn skips(
        &mut self,
        number: usize,
        carried: &Carried,
        rows: &[Row],
        departure: &Departure,
        zero: Moment,
    ) -> bool
        requires row { departure.now.row < length rows.now }
        requires zero { IsZero zero }
        ensures points { self.new.0 ≡ self.old.0 }
        ensures noted { IsTrue result
            ↔ IsNoted self.old number rows.now departure.now.row zero carried.now }
        ensures notes { result ≡ false → number < length self.old.1
            → slice_get self.new.1 number
            ≡ Some (record { point = length self.old.0; row = departure.now.row }) }
    {
        if self.has_boarded(number, carried, rows, departure.row, zero) {
            return true;
        }
        let note = Note {
            point: self.points.len(),
            row: departure.row,
        };
        self.put(number, note);
        false
    }
}
