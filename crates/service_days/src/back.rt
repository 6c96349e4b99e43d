// Days counted back.

ghost use Rattle.std.specs.Prelude.{◌≡◌, ◌↔◌, ◌<◌, ◌+ℤ◌, ◌≤ℤ◌, ℤ, pos, IfSome, Some, length};
ghost use Rattle.flex_model.specs.ServiceDay.{IsBack, IsDaysBack};

use crate::services::runs_on;
use flex_model::limits::MOST_DAYS_BACK;
use flex_model::{Feed, Service};

/// The day that lies `n` active days of the service back from the day. There is none where it would lie more
/// than 1,500 days back, which is this project's own limit, or where the service has too few active days.
pub fn days_back(service: &Service, day: i32, n: u32) -> Option<i32>
    ensures { (earlier : ℤ) → IsDaysBack service.now day n earlier ↔ (result ≡ Some earlier) }
{
    if n == 0 {
        return Some(day);
    }
    let mut found = 0;
    for between in 0..MOST_DAYS_BACK {
        let earlier = i64::from(day) - i64::from(between + 1);
        if runs_on(service, earlier) {
            found += 1;
            if found == n {
                return Some(earlier as i32);
            }
        }
    }
    None
}

/// The day that lies `n` days back from the day: active days of the service, or calendar days where there is
/// none, which the condition keeps in the range of the type.
pub fn count_back(feed: &Feed, service: Option<u32>, day: i32, n: u32) -> Option<i32>
    requires service { IfSome service (λ s. s < length feed.now.services) }
    requires in_range { pos n ≤ℤ (day +ℤ pos 2147483648) }
    ensures { (earlier : ℤ) → IsBack feed.now service day n earlier ↔ (result ≡ Some earlier) }
{
    match service {
        Some(s) => days_back(&feed.services[s as usize], day, n),
        None => Some((i64::from(day) - i64::from(n)) as i32),
    }
}
