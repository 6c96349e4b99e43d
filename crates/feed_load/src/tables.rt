// The tables and zones of a feed.

use feed_tables::Table;
use flex_model::Listed;
use geo_json::ZoneRecord;

/// The tables and zones that a feed is read from. Those that no folder can do without are there.
#[derive(Clone, Copy)]
pub(crate) struct FeedTables<'a> {
    pub(crate) stops: Option<&'a Table>,
    pub(crate) trips: &'a Table,
    pub(crate) stop_times: &'a Table,
    pub(crate) calendar: Option<&'a Table>,
    pub(crate) dates: Option<&'a Table>,
    pub(crate) zones: Option<&'a Listed<ZoneRecord>>,
    pub(crate) groups: Option<&'a Table>,
    pub(crate) group_stops: Option<&'a Table>,
    pub(crate) booking_rules: Option<&'a Table>,
    pub(crate) transfers: Option<&'a Table>,
    pub(crate) frequencies: Option<&'a Table>,
}
