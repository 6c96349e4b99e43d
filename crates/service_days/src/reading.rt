// Zones of POSIX rules and zone files.

ghost use Rattle.std.specs.Prelude.{◌≡◌, ◌≢◌};
ghost use Rattle.service_days.specs.ZoneForms.{IsZoneAnswer};

use crate::forms::{ZoneForm, ZoneRefusal};
use crate::noons::zone_bases;
use crate::texts::rule_text;
use crate::zone::{ZoneValue, utc_zone};
use jiff::Error;
use jiff::tz::{TimeZone, Tzif};
use std::alloc::Global;
use std::str;

// What an error of a zone file's reader means.
fn refusal_of(error: Error) -> ZoneRefusal
    ensures memory { error ≡ Error.OutOfMemory → result ≡ ZoneRefusal.NoMemory }
    ensures other { error ≢ Error.OutOfMemory → result ≡ ZoneRefusal.BadZone }
{
    if error == Error::OutOfMemory {
        ZoneRefusal::NoMemory
    } else {
        ZoneRefusal::BadZone
    }
}

// The zone of a POSIX rule.
fn read_posix(alloc: Global, bytes: &[u8]) -> Result<ZoneValue, ZoneRefusal>
    ensures { IsZoneAnswer ZoneForm.Posix bytes.now result }
{
    let Ok(whole) = str::from_utf8(bytes) else {
        return Err(ZoneRefusal::BadZone);
    };
    let text = rule_text(whole);
    if text == "UTC0" {
        return Ok(utc_zone());
    }
    let Ok(zone) = TimeZone::posix(text) else {
        return Err(ZoneRefusal::BadZone);
    };
    let bases = zone_bases(alloc, &zone)?;
    Ok(ZoneValue::of_bases(bases))
}

// The zone of a zone file.
fn read_tzif(alloc: Global, bytes: &[u8]) -> Result<ZoneValue, ZoneRefusal>
    ensures { IsZoneAnswer ZoneForm.Tzif bytes.now result }
{
    let table = match Tzif::parse(alloc, None, bytes) {
        Ok(table) => table,
        Err(error) => return Err(refusal_of(error)),
    };
    let bases = zone_bases(alloc, &TimeZone::tzif(&table))?;
    Ok(ZoneValue::of_bases(bases))
}

/// Reads the zone of the bytes. A POSIX text loses one byte order mark at its start, and then spaces, tabs, line feeds and
/// carriage returns at both ends; `UTC0` is UTC, which takes no memory. Bytes that are no zone of the form are refused as
/// `BadZone`. The value keeps nothing of the bytes but the begins of the zone's service days.
pub fn read_zone(alloc: Global, bytes: &[u8], form: ZoneForm) -> Result<ZoneValue, ZoneRefusal>
    ensures { IsZoneAnswer form bytes.now result }
{
    match form {
        ZoneForm::Posix => read_posix(alloc, bytes),
        ZoneForm::Tzif => read_tzif(alloc, bytes),
    }
}
