// Keys of two parts that were met.

ghost use Rattle.std.specs.Prelude.{◌≡◌, ◌||◌, ℕ, List, IfOk, OnOk};
ghost use Rattle.field_text.specs.Grammars.{id};
ghost use Rattle.feed_meaning.specs.Rules.{both};
ghost use Rattle.feed_rules.specs.Pairs.{has_pair, has_some_pair, is_pair};

use flex_model::NoMemory;
use indexmap::IndexSet;
use std::hash::Hash;

/// Notes a key of an id and another part, which counts where both are there, and says whether it was met before.
pub(crate) fn note_pair<'a, T: Copy + Eq + Hash>(
    met: &mut IndexSet<(&'a str, T)>,
    first: &'a str,
    second: Option<T>,
) -> Result<bool, NoMemory>
    ensures repeated { IfOk result (λ is_repeated. is_repeated ≡ has_some_pair T.eq met.old.keys
        (both (id first.now) second)) }
    ensures noted { OnOk result ((q : List ℕ × T)
        → has_pair T.eq met.new.keys q ≡ (has_pair T.eq met.old.keys q || is_pair T.eq q
        (both (id first.now) second))) }
{
    let Some(second) = second else {
        return Ok(false);
    };
    if first.is_empty() {
        return Ok(false);
    }
    let is_new = met.insert((first, second))?;
    Ok(!is_new)
}
