//! Service days: when they begin, which of them a service runs on, and how days are counted back.
#![tactic(auto)]

mod back;
mod days;
mod forms;
mod laws;
mod noons;
mod reading;
mod running;
mod services;
mod texts;
mod zone;

pub use back::{count_back, days_back};
pub use days::{begin, first_travel_day, is_travel_day, moment};
pub use forms::{ZoneForm, ZoneRefusal};
pub use laws::utc_days_begin_at_midnight;
pub use reading::read_zone;
pub use running::is_running;
pub use services::active;
pub use zone::{ZoneValue, day_table};
