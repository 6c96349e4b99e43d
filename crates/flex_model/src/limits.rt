//! Every limit of the formats and of the input, once. A greatest value is itself allowed. All are this project's own, but for
//! those of the globe.

/// The greatest latitude, in 10^-15 degree north or south of the equator.
pub const GREATEST_LATITUDE: i64 = 90_000_000_000_000_000;

/// The greatest longitude, in 10^-15 degree east or west of Greenwich.
pub const GREATEST_LONGITUDE: i64 = 180_000_000_000_000_000;

/// How many bytes the text of a degree may have.
pub const MOST_DEGREE_BYTES: usize = 64;

/// The greatest hours of a time of a service day, which is up to 167:59:59.
pub const GREATEST_HOURS: u64 = 167;

/// The first year of moments that are read and printed.
pub const FIRST_YEAR: u64 = 1980;

/// The last year of moments that are read and printed.
pub const LAST_YEAR: u64 = 2209;

/// The greatest `stop_sequence` of `stop_times.txt`.
pub const GREATEST_SEQUENCE: u64 = 4_294_967_294;

/// The greatest number of seconds from a start of a trip to the next, `headway_secs` of `frequencies.txt`.
pub const GREATEST_HEADWAY: u64 = 86_400;

/// The greatest number of seconds of a change, `min_transfer_time` of `transfers.txt`.
pub const GREATEST_CHANGE: u64 = 86_400;

/// The greatest number of seconds of a direct time.
pub const GREATEST_DIRECT: u64 = 604_800;

/// The greatest number of seconds of a walk.
pub const GREATEST_WALK: u64 = 86_400;

/// The greatest number of minutes of notice in `booking_rules.txt`.
pub const GREATEST_NOTICE_MINUTES: u64 = 1_000_000;

/// The greatest number of days of notice in `booking_rules.txt`.
pub const GREATEST_NOTICE_DAYS: u64 = 1_000;

/// The greatest number of transfers that a query allows.
pub const GREATEST_TRANSFERS: u64 = 7;

/// The greatest horizon of a query, in minutes.
pub const GREATEST_HORIZON: u64 = 2_880;

/// The first moment that a query may name, 1990-01-01T00:00:00Z in seconds since 1970-01-01T00:00:00Z.
pub const FIRST_QUERY_MOMENT: i64 = 631_152_000;

/// The last moment that a query may name, 2199-12-31T23:59:59Z in the same unit.
pub const LAST_QUERY_MOMENT: i64 = 7_258_118_399;

/// How many records a table may have after its header.
pub const MOST_RECORDS: u64 = 4_000_000;

/// How many bytes `stop_times.txt` and `direct.txt` may have.
pub const MOST_LARGE_TABLE_BYTES: u64 = 268_435_456;

/// How many bytes `zone.txt` and `zone.tzif` may have.
pub const MOST_ZONE_BYTES: u64 = 1_048_576;

/// How many bytes each other input file may have.
pub const MOST_FILE_BYTES: u64 = 67_108_864;

/// How many arrays and objects of a JSON text may be open at once.
pub const MOST_OPEN_LEVELS: usize = 64;

/// How many days back a day of a service is looked for.
pub const MOST_DAYS_BACK: u32 = 1_500;

/// How many days a query's day table has.
pub const TABLE_DAYS: usize = 1_526;

/// How many of them, the last ones, are its travel days.
pub const TRAVEL_DAYS: usize = 22;

/// How many days the table begins before the day of the query's departure.
pub const TABLE_DAYS_BEFORE: u32 = 1_520;
