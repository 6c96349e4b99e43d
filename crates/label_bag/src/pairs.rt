// Pairs, by which they cover each other and in which order they stand.

ghost use Rattle.std.specs.Prelude.{◌≡◌, ◌↔◌, ◌⊎◌, IfSome, IsTrue, Some};
ghost use Rattle.flex_model.specs.Deadline.{IsNoLater};
ghost use Rattle.flex_model.specs.Triple.{CoversPair, IsPairBefore};

use flex_model::{Deadline, Pair};

/// Whether `a` can be booked no less late, arrives no later and walks no farther than `b`. A pair
/// covers itself.
pub fn covers(a: &Pair, b: &Pair) -> bool
    ensures { IsTrue result ↔ CoversPair a.now b.now }
{
    a.deadline >= b.deadline && a.arrival <= b.arrival && a.walk <= b.walk
}

// Whether `a` stands before `b`: by arrival, and then by walk.
pub(crate) fn comes_before(a: &Pair, b: &Pair) -> bool
    ensures { IsTrue result ↔ IsPairBefore a.now b.now }
{
    a.arrival < b.arrival || a.arrival == b.arrival && a.walk < b.walk
}

// Whether `a` is later than `b`.
pub(crate) fn is_later(a: Deadline, b: Deadline) -> bool
    ensures { IsTrue result ↔ (IsNoLater a b → ⊥) }
{
    a > b
}

// The later one of the two deadlines.
pub(crate) fn later(best: Option<Deadline>, deadline: Deadline) -> Deadline
    ensures one { (result ≡ deadline) ⊎ (best ≡ Some result) }
    ensures no_less { IsNoLater deadline result }
    ensures best { IfSome best (λ other. IsNoLater other result) }
{
    match best {
        Some(best) => best.max(deadline),
        None => deadline,
    }
}
