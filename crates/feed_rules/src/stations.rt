// The stops where one can't board.

ghost use Rattle.std.specs.Prelude.{◌≡◌, ℕ, List, IfOk, map, true};
ghost use Rattle.std.specs.List.{list_any};
ghost use Rattle.std.specs.Str.{bytes_eq};
ghost use Rattle.flex_model.specs.declared.fault.InputFile.TheVariants as InputFiles;
ghost use Rattle.feed_tables.specs.Refusals.{is_given};
ghost use Rattle.feed_meaning.specs.FeedLinks.{Tables, is_station};
ghost use Rattle.feed_meaning.specs.Tables.{entries_of};

use crate::stops::is_boarding;
use feed_meaning::{Ids, value};
use feed_tables::Table;
use flex_model::NoMemory;
use std::alloc::Global;

/// The ids of the stops where one can't board, as stations.
pub(crate) fn stations_in<'a>(alloc: Global, stops: &'a Table) -> Result<Ids<'a>, NoMemory>
    ensures { IfOk result (λ ids. (tables : Tables)
        → tables InputFiles.Stops ≡ map (λ e. e.values) (entries_of stops.now)
        → (text : List ℕ) → is_given text ≡ true
        → list_any (bytes_eq text) ids ≡ is_station tables text) }
{
    let stop_id = stops.column("stop_id");
    let location_type = stops.column("location_type");
    let mut ids = Ids::new(alloc);
    for row in stops.rows() {
        let kind = value(&row, location_type);
        if is_boarding(kind) {
            continue;
        }
        let stop = value(&row, stop_id);
        ids.note(stop)?;
    }
    Ok(ids)
}
