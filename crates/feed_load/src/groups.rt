// The groups of location_groups.txt, with their stops of location_group_stops.txt.

ghost use Rattle.std.specs.Prelude.{◌≡◌, [], IfOk, OnOk, map};
ghost use Rattle.std.specs.List.{AllZip};
ghost use Rattle.flex_model.specs.SoundTimes.{AreIds};
ghost use Rattle.flex_model.specs.declared.fault.InputFile.TheVariants as InputFiles;
ghost use Rattle.feed_meaning.specs.FeedLinks.{Tables};
ghost use Rattle.feed_meaning.specs.FeedValue as Value;
ghost use Rattle.feed_rules.specs.Links.{records_in};
ghost use Rattle.feed_load.specs.TableValues.{values_in};
ghost use Rattle.feed_load.specs.GroupMembers.{IsRisingGroup, group_by, unordered_group, with_member};

use crate::fields::text_of;
use feed_meaning::{Ids, ids_in, value};
use feed_tables::Table;
use flex_model::{Group, Listed, NoMemory};
use std::alloc::Global;

// A group without members.
fn memberless_group(alloc: Global, id: &str) -> Result<Group, NoMemory>
    ensures { IfOk result (λ group. group ≡ group_by id.now []) }
{
    Ok(Group {
        id: text_of(alloc, id)?,
        members: Listed::new(alloc),
    })
}

// The groups without members, in the order of the file.
fn memberless_groups(alloc: Global, table: &Table) -> Result<Vec<Group>, NoMemory>
    ensures { IfOk result (λ groups.
        groups.items ≡ map (λ r. group_by (r "location_group_id") []) (values_in table.now)) }
{
    let group_id = table.column("location_group_id");
    let mut groups = Vec::new(alloc);
    for row in table.rows() {
        let id = value(&row, group_id);
        groups.push(memberless_group(alloc, id)?)?;
    }
    Ok(groups)
}

// Adds a member at the end of a group.
fn add_member(group: &mut Group, index: u32) -> Result<(), NoMemory>
    ensures { OnOk result (group.new ≡ with_member index group.old) }
{
    group.members.push(index)
}

// The groups with their members as they stand in the file: one pass over the pairs, each of which
// goes to its group.
fn unordered_groups(
    alloc: Global,
    groups: &Table,
    pairs: &Table,
    stop_ids: &Ids<'_>,
) -> Result<Vec<Group>, NoMemory>
    requires { AreIds (map (λ r. r "location_group_id") (values_in groups.now)) }
    ensures { IfOk result (λ found. found.items
        ≡ map (unordered_group stop_ids.now (values_in pairs.now)) (values_in groups.now)) }
{
    let group_ids = ids_in(alloc, groups, "location_group_id")?;
    let group_id = pairs.column("location_group_id");
    let stop_id = pairs.column("stop_id");
    let mut found = memberless_groups(alloc, groups)?;
    for row in pairs.rows() {
        let Some(group) = group_ids.index_of(value(&row, group_id)) else {
            continue;
        };
        let stop = value(&row, stop_id);
        let Some(index) = stop_ids.index_of(stop) else {
            continue;
        };
        add_member(&mut found[group as usize], index)?;
    }
    Ok(found)
}

// The groups with their members in any order, and with none where no file has members.
fn groups_among(
    alloc: Global,
    groups: &Table,
    pairs: Option<&Table>,
    stop_ids: &Ids<'_>,
) -> Result<Vec<Group>, NoMemory>
    requires { AreIds (map (λ r. r "location_group_id") (values_in groups.now)) }
    ensures { IfOk result (λ found. found.items
        ≡ map (unordered_group stop_ids.now (records_in pairs.entry)) (values_in groups.now)) }
{
    match pairs {
        Some(pairs) => unordered_groups(alloc, groups, pairs, stop_ids),
        None => memberless_groups(alloc, groups),
    }
}

// The group with its members rising, each once.
fn rising_group(group: Group) -> Group
    ensures { IsRisingGroup group result }
{
    let Group { id, members } = group;
    let mut members = members.into_vec();
    members.sort_unstable();
    members.dedup();
    Group {
        id,
        members: Listed::from_vec(members),
    }
}

// The groups with their members rising, each once.
fn rising_groups(alloc: Global, groups: Vec<Group>) -> Result<Listed<Group>, NoMemory>
    ensures { IfOk result (AllZip IsRisingGroup groups.items) }
{
    let mut rising = Listed::new(alloc);
    for group in groups {
        rising.push(rising_group(group))?;
    }
    Ok(rising)
}

/// The groups of location_groups.txt in the order of the file, each with the places of its stops
/// among the ids of the stops.
pub(crate) fn groups_of(
    alloc: Global,
    groups: Option<&Table>,
    group_stops: Option<&Table>,
    stop_ids: &Ids<'_>,
) -> Result<Listed<Group>, NoMemory>
    requires groups { AreIds (map (λ r. r "location_group_id") (records_in groups)) }
    requires stops { AreIds stop_ids.now }
    ensures { IfOk result (λ found. (tables : Tables)
        → tables InputFiles.LocationGroups ≡ records_in groups.entry
        → tables InputFiles.LocationGroupStops ≡ records_in group_stops.entry
        → map (λ r. r "stop_id") (tables InputFiles.Stops) ≡ stop_ids.now
        → found ≡ map (Value.group_of tables) (tables InputFiles.LocationGroups)) }
{
    match groups {
        Some(groups) => rising_groups(alloc, groups_among(alloc, groups, group_stops, stop_ids)?),
        None => Ok(Listed::new(alloc)),
    }
}
