// Pairs of ids that were met.

ghost use Rattle.std.specs.Prelude.{◌≡◌, IfOk, OnOk};
ghost use Rattle.field_text.specs.Grammars.{id};
ghost use Rattle.feed_meaning.specs.Rules.{both};
ghost use Rattle.place_times.specs.Pairs.{has_some_pair, noted_pair, pairs_of};

use flex_model::NoMemory;
use indexmap::IndexSet;

/// Notes a pair of ids, which counts where neither is empty, and says whether it was met before.
pub(crate) fn note_pair<'a>(
    met: &mut IndexSet<(&'a str, &'a str)>,
    from: &'a str,
    to: &'a str,
) -> Result<bool, NoMemory>
    ensures repeated { IfOk result (λ is_repeated. is_repeated ≡ has_some_pair
        (pairs_of met.old.keys) (both (id from.now) (id to.now))) }
    ensures noted { OnOk result (pairs_of met.new.keys ≡ noted_pair (pairs_of met.old.keys)
        (both (id from.now) (id to.now))) }
{
    if from.is_empty() {
        return Ok(false);
    }
    if to.is_empty() {
        return Ok(false);
    }
    let is_new = met.insert((from, to))?;
    Ok(!is_new)
}
