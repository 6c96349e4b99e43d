// The records of a query file: the rules that each breaks, and its query.

ghost use Rattle.std.specs.Prelude.{◌≡◌, ◌++◌, List, IfOk, OnOk, is_none, map, nat_lt, Some};
ghost use Rattle.std.specs.Option.{option_to_list};
ghost use Rattle.std.specs.Result.{result_err};
ghost use Rattle.flex_model.specs.SoundFeed.{IsSoundFeed};
ghost use Rattle.flex_model.specs.SoundTimes.{AreSoundTimes};
ghost use Rattle.flex_model.specs.declared.fault.InputFile.TheVariants as InputFiles;
ghost use Rattle.flex_model.specs.declared.feed.Feed as Feeds;
ghost use Rattle.flex_model.specs.declared.times.Times as Spans;
ghost use Rattle.feed_meaning.specs.QueryFaults;
ghost use Rattle.feed_meaning.specs.Rules.{Values, repeats_id, stand};
ghost use Rattle.feed_meaning.specs.Tables.{entries_of, record_faults};
ghost use Rattle.feed_meaning.specs.TimesValue.{query_of};
ghost use Rattle.query_io.specs.QueryFields as FieldValues;
ghost use Rattle.query_io.specs.QueryFields.{HasFields};
ghost use Rattle.query_io.specs.Reads.{HoldsQueries};

use crate::queries::ReadQueries;
use crate::query_fields::{QueryFields, query_columns, read_fields};
use crate::query_places::place_ids;
use feed_meaning::{Ids, add_faults, is_empty, rule};
use feed_tables::Table;
use flex_model::{Fault, FaultCode, Feed, InputFile, Listed, NoMemory, Place, Query, Text, Times};
use std::alloc::Global;

// Whether a text has no value of its kind.
fn is_no<T: Copy>(value: Option<T>) -> bool
    ensures { result ≡ is_none value }
{
    value.is_none()
}

// Whether there is a number, and it isn't 0.
fn is_positive(number: Option<u32>) -> bool
    ensures { result ≡ stand nat_lt (Some 0) number }
{
    match number {
        Some(number) => 0 < number,
        None => false,
    }
}

// The fault of a text that names no place.
fn place_fault(place: Result<Place, FaultCode>) -> Option<FaultCode>
    ensures { result ≡ result_err place }
{
    match place {
        Ok(_) => None,
        Err(code) => Some(code),
    }
}

// The rules of a query.
fn query_rules(fields: &QueryFields<'_>, is_repeated: bool) -> [Option<FaultCode>; 9]
    ensures { (feed : Feeds.Feed) (times : Spans.Times) (earlier : List Values) (r : Values)
        → HasFields feed times r fields.now → is_repeated ≡ repeats_id "query_id" earlier r
        → result ≡ QueryFaults.query_rules feed times earlier r }
{
    [
        rule(FaultCode::EmptyField, is_empty(fields.id)),
        rule(FaultCode::DuplicateKey, is_repeated),
        place_fault(fields.origin),
        place_fault(fields.destination),
        rule(FaultCode::BadMoment, is_no(fields.depart)),
        rule(FaultCode::BadMoment, is_no(fields.asked)),
        rule(FaultCode::BadNumber, is_no(fields.transfers)),
        rule(FaultCode::BadNumber, !is_positive(fields.horizon)),
        rule(FaultCode::BadEnum, is_no(fields.walking)),
    ]
}

// The query of a record whose values are all there.
fn query_from(alloc: Global, fields: &QueryFields<'_>) -> Result<Option<Query>, NoMemory>
    ensures { IfOk result (λ query. query ≡ FieldValues.query_from fields.now) }
{
    let (Ok(origin), Ok(destination)) = (fields.origin, fields.destination) else {
        return Ok(None);
    };
    let (Some(depart), Some(now)) = (fields.depart, fields.asked) else {
        return Ok(None);
    };
    let (Some(transfers), Some(horizon)) = (fields.transfers, fields.horizon) else {
        return Ok(None);
    };
    let Some(walking) = fields.walking else {
        return Ok(None);
    };
    let mut id = Text::new(alloc);
    id.append(fields.id)?;
    Ok(Some(Query {
        id,
        origin,
        destination,
        depart,
        now,
        transfers,
        horizon,
        walking,
    }))
}

// Adds a query, if there is one.
fn push_query(queries: &mut Listed<Query>, query: Option<Query>) -> Result<(), NoMemory>
    ensures { OnOk result (queries.new ≡ queries.old ++ option_to_list query) }
{
    match query {
        Some(query) => queries.push(query),
        None => Ok(()),
    }
}

// The queries, if there are no faults.
fn queries_or_faults(faults: Listed<Fault>, queries: Listed<Query>) -> ReadQueries
    ensures { HoldsQueries faults queries result }
{
    if faults.is_empty() {
        ReadQueries::Clean(queries)
    } else {
        ReadQueries::Faulty(faults)
    }
}

/// The queries of a table's records, or their faults.
pub(crate) fn read_records(
    alloc: Global,
    feed: &Feed,
    times: &Times,
    table: &Table,
) -> Result<ReadQueries, NoMemory>
    requires feed { IsSoundFeed feed.now }
    requires times { AreSoundTimes feed.now times.now }
    ensures { IfOk result (HoldsQueries
        (record_faults InputFiles.Queries (QueryFaults.query_rules feed.now times.now)
        (entries_of table.now))
        (map (λ e. query_of feed.now times.now e.values) (entries_of table.now))) }
{
    let ids = place_ids(alloc, feed, times)?;
    let columns = query_columns(table);
    let mut faults = Listed::new(alloc);
    let mut queries = Listed::new(alloc);
    let mut met = Ids::new(alloc);
    for row in table.rows() {
        let fields = read_fields(&ids, &columns, &row);
        let is_repeated = met.note(fields.id)?;
        let rules = query_rules(&fields, is_repeated);
        add_faults(&mut faults, InputFile::Queries, row.number(), &rules)?;
        let query = query_from(alloc, &fields)?;
        push_query(&mut queries, query)?;
    }
    Ok(queries_or_faults(faults, queries))
}
