// The records of direct.txt and walks.txt: the rules that each breaks by itself.

ghost use Rattle.std.specs.Prelude.{◌≡◌, ◌<◌, ◌^◌, ℕ, List, IfOk};
ghost use Rattle.field_text.specs.Grammars.{count};
ghost use Rattle.feed_meaning.specs.Rules.{Values, repeats_ids};
ghost use Rattle.feed_meaning.specs.Tables.{entries_of, record_faults};
ghost use Rattle.feed_meaning.specs.TimesFaults;

use crate::fields::{is_no, seconds_within};
use crate::pairs::note_pair;
use feed_meaning::{add_faults, is_empty, rule, value};
use feed_tables::Table;
use flex_model::{Fault, FaultCode, InputFile, Listed, NoMemory};
use indexmap::IndexSet;
use std::alloc::Global;

// The rules of a span.
fn span_rules(
    from: &str,
    to: &str,
    seconds: Option<u32>,
    is_repeated: bool,
) -> [Option<FaultCode>; 4]
    ensures { (most : ℕ) (earlier : List Values) (r : Values) → from.now ≡ r "from_id"
        → to.now ≡ r "to_id" → seconds ≡ count most (r "seconds")
        → is_repeated ≡ repeats_ids "from_id" "to_id" earlier r
        → result ≡ TimesFaults.span_rules most earlier r }
{
    [
        rule(FaultCode::EmptyField, is_empty(from)),
        rule(FaultCode::EmptyField, is_empty(to)),
        rule(FaultCode::BadNumber, is_no(seconds)),
        rule(FaultCode::DuplicateKey, is_repeated),
    ]
}

/// The faults of the records of direct.txt or walks.txt by themselves, where a span takes at most so many seconds.
pub(crate) fn span_faults(
    alloc: Global,
    file: InputFile,
    most: u64,
    table: &Table,
) -> Result<Listed<Fault>, NoMemory>
    requires { most < 2 ^ 32 }
    ensures { IfOk result (λ faults. faults ≡ record_faults file (TimesFaults.span_rules most)
        (entries_of table.now)) }
{
    let from_id = table.column("from_id");
    let to_id = table.column("to_id");
    let seconds_column = table.column("seconds");
    let mut faults = Listed::new(alloc);
    let mut met = IndexSet::new(alloc);
    for row in table.rows() {
        let from = value(&row, from_id);
        let to = value(&row, to_id);
        let seconds = seconds_within(value(&row, seconds_column), most);
        let is_repeated = note_pair(&mut met, from, to)?;
        let rules = span_rules(from, to, seconds, is_repeated);
        add_faults(&mut faults, file, row.number(), &rules)?;
    }
    Ok(faults)
}
