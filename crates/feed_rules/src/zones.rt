// The zones of a feed, as they were read.

ghost use Rattle.std.specs.Prelude.{◌≡◌, ◌≤◌, [], ◌∷◌, IfOk, length, map};
ghost use Rattle.flex_model.specs.declared.fault.InputFile.TheVariants as InputFiles;
ghost use Rattle.flex_model.specs.declared.fault.RawFile.TheVariants as Raw;
ghost use Rattle.feed_meaning.specs.Locations as Locations;
ghost use Rattle.feed_meaning.specs.Told.{IsWithin};
ghost use Rattle.feed_meaning.specs.Locations.{repeated};
ghost use Rattle.feed_meaning.specs.Tables as Tables;
ghost use Rattle.feed_rules.specs.Zones as FoundFiles;
ghost use Rattle.feed_rules.specs.Zones.{AreFoundZones};
ghost use Rattle.geo_json.specs.Zones.{feature_in};

use feed_meaning::{add_faults, rule};
use flex_model::{Fault, FaultCode, InputFile, Listed, NoMemory, RawFile};
use geo_json::{GeoRefusal, ZoneRecord, read_zones};
use indexmap::IndexSet;
use std::alloc::Global;

/// What locations.geojson was found to be.
#[derive(Drop)]
pub(crate) enum FoundZones {
    /// There is no such file.
    Absent,
    /// It has more bytes than are read.
    TooLarge,
    /// No zones are read from it, for what is wrong in this row.
    Refused { code: FaultCode, row: u64 },
    /// Its zones. Several may have one id.
    Read(Listed<ZoneRecord>),
}

// The bytes without one byte order mark at their start.
fn without_mark(bytes: &[u8]) -> &[u8]
    ensures { result.now ≡ Locations.without_mark bytes.now }
{
    match bytes.strip_prefix(&[0xEF, 0xBB, 0xBF]) {
        Some(rest) => rest,
        None => bytes,
    }
}

// The row of an offset: 1 and the line feeds before it.
fn row_at(text: &[u8], offset: usize) -> u64
    requires { offset ≤ length text.now }
    ensures { result ≡ Locations.row_at text.now offset }
{
    let mut row = 1;
    for byte in &text[..offset] {
        if *byte == b'\n' {
            row += 1;
        }
    }
    row
}

// Reads the bytes of the file as zones.
fn read_bytes(alloc: Global, bytes: &[u8]) -> Result<FoundZones, NoMemory>
    requires { length bytes.now ≤ 4294967295 }
    ensures { IfOk result (AreFoundZones (Raw.Bytes bytes.now)) }
{
    let unmarked = without_mark(bytes);
    let text = match str::from_utf8(unmarked) {
        Ok(text) => text,
        Err(error) => {
            return Ok(FoundZones::Refused {
                code: FaultCode::NotUtf8,
                row: row_at(unmarked, error.valid_up_to()),
            });
        }
    };
    match read_zones(alloc, text) {
        Ok(zones) => Ok(FoundZones::Read(zones)),
        Err(GeoRefusal::Fault { code, line }) => Ok(FoundZones::Refused { code, row: line }),
        Err(GeoRefusal::NoMemory) => Err(NoMemory),
    }
}

/// Reads a file as zones.
pub(crate) fn find_zones(alloc: Global, raw: &RawFile) -> Result<FoundZones, NoMemory>
    requires { IsWithin 4294967295 raw.now }
    ensures { IfOk result (AreFoundZones raw.now) }
{
    match raw {
        RawFile::Absent => Ok(FoundZones::Absent),
        RawFile::TooLarge => Ok(FoundZones::TooLarge),
        RawFile::Bytes(bytes) => read_bytes(alloc, bytes.as_slice()),
    }
}

/// Whether the file was found, and doesn't count as absent.
pub(crate) fn are_found(found: &FoundZones) -> bool
    ensures { result ≡ FoundFiles.are_found found.now }
{
    match found {
        FoundZones::Absent => false,
        _ => true,
    }
}

// One fault of the file.
fn one_fault(alloc: Global, row: u64, code: FaultCode) -> Result<Listed<Fault>, NoMemory>
    ensures { IfOk result (λ faults. faults ≡ Tables.fault InputFiles.Locations row code ∷ []) }
{
    let mut faults = Listed::new(alloc);
    faults.push(Fault {
        file: InputFile::Locations,
        row,
        code,
    })?;
    Ok(faults)
}

// The faults of zones with an id that an earlier one has.
fn repeated_ids(alloc: Global, zones: &Listed<ZoneRecord>) -> Result<Listed<Fault>, NoMemory>
    ensures { IfOk result (λ faults. faults
        ≡ map (λ f. Tables.fault InputFiles.Locations f.0 f.1)
        (repeated (map feature_in zones.now))) }
{
    let mut faults = Listed::new(alloc);
    let mut met = IndexSet::new(alloc);
    for zone in zones.as_slice() {
        let is_new = met.insert(zone.id.as_str())?;
        let rules = [rule(FaultCode::DuplicateKey, !is_new)];
        add_faults(&mut faults, InputFile::Locations, zone.line, &rules)?;
    }
    Ok(faults)
}

/// The faults of locations.geojson by itself, which every feed can do without.
pub(crate) fn zone_faults(alloc: Global, found: &FoundZones) -> Result<Listed<Fault>, NoMemory>
    ensures { IfOk result (λ faults. faults ≡ FoundFiles.zone_faults found.now) }
{
    match found {
        FoundZones::Absent => Ok(Listed::new(alloc)),
        FoundZones::TooLarge => one_fault(alloc, 0, FaultCode::FileTooLarge),
        FoundZones::Refused { code, row } => one_fault(alloc, *row, *code),
        FoundZones::Read(zones) => repeated_ids(alloc, zones),
    }
}
