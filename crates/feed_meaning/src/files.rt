// The names and limits of the input files, and the names of the fault codes.

ghost use Rattle.std.specs.Prelude.{◌≡◌};
ghost use Rattle.feed_meaning.specs.Files;
ghost use Rattle.feed_meaning.specs.Folder;

use flex_model::limits::{MOST_FILE_BYTES, MOST_LARGE_TABLE_BYTES, MOST_ZONE_BYTES};
use flex_model::{FaultCode, InputFile};

/// A file's name in its folder, as printed faults have it too. The query file has any name: it is
/// printed as `queries`.
pub fn file_name(file: InputFile) -> &'static str
    ensures { result.now ≡ Files.file_name file }
{
    match file {
        InputFile::Agency => "agency.txt",
        InputFile::Stops => "stops.txt",
        InputFile::Routes => "routes.txt",
        InputFile::Trips => "trips.txt",
        InputFile::StopTimes => "stop_times.txt",
        InputFile::Calendar => "calendar.txt",
        InputFile::CalendarDates => "calendar_dates.txt",
        InputFile::Locations => "locations.geojson",
        InputFile::LocationGroups => "location_groups.txt",
        InputFile::LocationGroupStops => "location_group_stops.txt",
        InputFile::BookingRules => "booking_rules.txt",
        InputFile::Transfers => "transfers.txt",
        InputFile::Frequencies => "frequencies.txt",
        InputFile::ZoneText => "zone.txt",
        InputFile::ZoneTzif => "zone.tzif",
        InputFile::Points => "points.txt",
        InputFile::Direct => "direct.txt",
        InputFile::Walks => "walks.txt",
        InputFile::Queries => "queries",
    }
}

/// The most bytes that a file may have.
pub fn byte_limit(file: InputFile) -> u64
    ensures { result ≡ Files.byte_limit file }
{
    match file {
        InputFile::StopTimes | InputFile::Direct => MOST_LARGE_TABLE_BYTES,
        InputFile::ZoneText | InputFile::ZoneTzif => MOST_ZONE_BYTES,
        _ => MOST_FILE_BYTES,
    }
}

/// Whether the file is a table that counts as absent where it has no record.
pub fn may_be_blank(file: InputFile) -> bool
    ensures { result ≡ Folder.may_be_blank file }
{
    !matches!(
        file,
        InputFile::Agency
            | InputFile::Routes
            | InputFile::Trips
            | InputFile::StopTimes
            | InputFile::Locations
            | InputFile::ZoneText
            | InputFile::ZoneTzif
            | InputFile::Queries
    )
}

/// The name of a code in printed faults.
pub fn code_name(code: FaultCode) -> &'static str
    ensures { result.now ≡ Files.code_name code }
{
    match code {
        FaultCode::MissingFile => "MISSING_FILE",
        FaultCode::FileTooLarge => "FILE_TOO_LARGE",
        FaultCode::NotUtf8 => "NOT_UTF8",
        FaultCode::NoHeader => "NO_HEADER",
        FaultCode::DuplicateColumn => "DUPLICATE_COLUMN",
        FaultCode::RowTooLong => "ROW_TOO_LONG",
        FaultCode::TooManyRows => "TOO_MANY_ROWS",
        FaultCode::MissingColumn => "MISSING_COLUMN",
        FaultCode::EmptyField => "EMPTY_FIELD",
        FaultCode::BadEnum => "BAD_ENUM",
        FaultCode::BadTime => "BAD_TIME",
        FaultCode::BadDate => "BAD_DATE",
        FaultCode::BadNumber => "BAD_NUMBER",
        FaultCode::BadCoordinate => "BAD_COORDINATE",
        FaultCode::BadMoment => "BAD_MOMENT",
        FaultCode::BadZone => "BAD_ZONE",
        FaultCode::DuplicateKey => "DUPLICATE_KEY",
        FaultCode::PlaceCount => "PLACE_COUNT",
        FaultCode::WindowPair => "WINDOW_PAIR",
        FaultCode::WindowMissing => "WINDOW_MISSING",
        FaultCode::WindowWithTime => "WINDOW_WITH_TIME",
        FaultCode::WindowOrder => "WINDOW_ORDER",
        FaultCode::WindowPickup => "WINDOW_PICKUP",
        FaultCode::WindowDropOff => "WINDOW_DROP_OFF",
        FaultCode::TimeOrder => "TIME_ORDER",
        FaultCode::UntimedEnd => "UNTIMED_END",
        FaultCode::DateOrder => "DATE_ORDER",
        FaultCode::FieldMissing => "FIELD_MISSING",
        FaultCode::FieldForbidden => "FIELD_FORBIDDEN",
        FaultCode::TimezoneDiffers => "TIMEZONE_DIFFERS",
        FaultCode::JsonSyntax => "JSON_SYNTAX",
        FaultCode::JsonDepth => "JSON_DEPTH",
        FaultCode::GeoShape => "GEO_SHAPE",
        FaultCode::RingOpen => "RING_OPEN",
        FaultCode::RingShort => "RING_SHORT",
        FaultCode::UnknownId => "UNKNOWN_ID",
        FaultCode::BadStopKind => "BAD_STOP_KIND",
        FaultCode::SharedId => "SHARED_ID",
    }
}
