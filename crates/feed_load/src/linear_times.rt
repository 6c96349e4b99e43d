// The times of the rows of a trip that have none of their own.

ghost use Rattle.std.specs.Prelude.{◌≡◌, ◌+◌, ◌<◌, MatchOption};
ghost use Rattle.feed_load.specs.LinearTimes as Linear;
ghost use Rattle.feed_load.specs.LinearTimes.{AreFilled, HasNone, IsNext, IsOpenFrom};

/// The times that a row of a trip was given, and whether it has a window, in which case it has no
/// times.
#[derive(Clone, Copy, Debug, PartialEq, Eq)]
pub struct GivenRow {
    /// Whether the row has a window.
    pub window: bool,
    /// Its arrival, in seconds of the service day.
    pub arrives: Option<u32>,
    /// Its departure, in seconds of the service day.
    pub departs: Option<u32>,
}

/// The next row with a time after some index.
#[derive(Clone, Copy)]
struct Ahead {
    // its arrival
    arrives: u32,
    // how many rows without time or window lie before it
    untimed: usize,
}

/// Two neighbours with times, of which the first lies before some index and the second doesn't.
#[derive(Clone, Copy)]
struct Gap {
    // the departure of the first
    leaves: u32,
    // the arrival of the second
    arrives: u32,
    // how many rows without time or window lie between them, and how many of them before the index
    untimed: usize,
    passed: usize,
}

// Whether a row has a time and no window.
fn is_timed(row: GivenRow) -> bool
    ensures { result ≡ Linear.is_timed row }
{
    !row.window && (row.arrives.is_some() || row.departs.is_some())
}

// Whether a row has neither a time nor a window.
fn is_untimed(row: GivenRow) -> bool
    ensures { result ≡ Linear.is_untimed row }
{
    !row.window && row.arrives.is_none() && row.departs.is_none()
}

// The first of the rows that has a time.
fn next_timed(rows: &[GivenRow]) -> Option<Ahead>
    ensures { MatchOption result (HasNone rows.now) (IsNext rows.now) }
{
    let mut untimed = 0;
    for row in rows {
        if is_timed(*row) {
            return Some(Ahead {
                arrives: row.arrives.or(row.departs).unwrap_or(0),
                untimed,
            });
        }
        if is_untimed(*row) {
            untimed += 1;
        }
    }
    None
}

// The gap from a row with a time to the next one, if there is one.
fn gap_from(row: GivenRow, later: &[GivenRow]) -> Option<Gap>
    ensures { MatchOption result (HasNone later.now) (IsOpenFrom row later.now) }
{
    let ahead = next_timed(later)?;
    Some(Gap {
        leaves: row.departs.or(row.arrives).unwrap_or(0),
        arrives: ahead.arrives,
        untimed: ahead.untimed,
        passed: 0,
    })
}

// The time of the next row without time or window in a gap.
fn time_in(gap: Gap) -> u32
    requires { gap.passed < gap.untimed }
    ensures { result ≡ Linear.share gap.leaves gap.arrives (gap.passed + 1) (gap.untimed + 1) }
{
    let length = u128::from(gap.arrives.saturating_sub(gap.leaves));
    let share = length * (gap.passed as u128 + 1) / (gap.untimed as u128 + 1);
    gap.leaves + share as u32
}

/// Fills the times of rows that have neither a time nor a window, between the departure of the
/// nearest row with a time before them and the arrival of the nearest one after them: in equal
/// parts, rounded down. A row that lies between no two such neighbours stays as it is. Each row is
/// looked at twice at most.
pub fn fill_times(rows: &mut [GivenRow])
    ensures { AreFilled rows.old rows.new }
{
    let mut gap: Option<Gap> = None;
    for index in 0..rows.len() {
        let row = rows[index];
        if is_timed(row) {
            gap = gap_from(row, &rows[index + 1..]);
        }
        if !is_untimed(row) {
            continue;
        }
        let Some(open) = gap else {
            continue;
        };
        let time = time_in(open);
        rows[index] = GivenRow {
            window: false,
            arrives: Some(time),
            departs: Some(time),
        };
        gap = Some(Gap {
            passed: open.passed + 1,
            ..open
        });
    }
}
