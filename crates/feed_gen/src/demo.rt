// The files of the demo.

ghost use Rattle.std.specs.Prelude.{◌≡◌, IfOk, OnOk};
ghost use Rattle.feed_gen.specs.DemoFiles.{demo_memory, with_texts};
ghost use Rattle.feed_gen.specs.DemoFiles.{other_texts, times_texts, trip_texts};

use crate::feed::{
    agency_text, booking_rules_text, calendar_text, locations_text, routes_text, stops_text,
    transfers_text, trips_text,
};
use crate::queries::queries_text;
use crate::stop_times::stop_times_text;
use crate::times::{direct_text, points_text, walks_text, zone_text};
use flex_io::MemFiles;
use flex_model::NoMemory;
use std::alloc::Global;

// Adds the tables of trips, and what they name.
#[tactic(auto, unfolding(crate::specs::DemoFiles::with_texts))]
fn add_trips(alloc: Global, number: u32, files: &mut MemFiles) -> Result<(), NoMemory>
    ensures { OnOk result (files.new ≡ record files.old {
      files = with_texts files.old.files (trip_texts number);
    }) }
{
    files.add("feed/agency.txt", agency_text().as_bytes())?;
    files.add("feed/stops.txt", stops_text(alloc)?.as_str().as_bytes())?;
    files.add("feed/routes.txt", routes_text(alloc)?.as_str().as_bytes())?;
    files.add("feed/trips.txt", trips_text(alloc)?.as_str().as_bytes())?;
    files.add(
        "feed/stop_times.txt",
        stop_times_text(alloc, number)?.as_str().as_bytes(),
    )
}

// Adds the other files of the feed.
#[tactic(auto, unfolding(crate::specs::DemoFiles::with_texts))]
fn add_others(alloc: Global, files: &mut MemFiles) -> Result<(), NoMemory>
    ensures { OnOk result (files.new ≡ record files.old {
      files = with_texts files.old.files other_texts;
    }) }
{
    files.add("feed/calendar.txt", calendar_text().as_bytes())?;
    files.add("feed/locations.geojson", locations_text().as_bytes())?;
    files.add("feed/booking_rules.txt", booking_rules_text().as_bytes())?;
    files.add(
        "feed/transfers.txt",
        transfers_text(alloc)?.as_str().as_bytes(),
    )
}

// Adds the files of the times.
#[tactic(auto, unfolding(crate::specs::DemoFiles::with_texts))]
fn add_times(alloc: Global, files: &mut MemFiles) -> Result<(), NoMemory>
    ensures { OnOk result (files.new ≡ record files.old {
      files = with_texts files.old.files times_texts;
    }) }
{
    files.add("times/zone.txt", zone_text().as_bytes())?;
    files.add("times/points.txt", points_text(alloc)?.as_str().as_bytes())?;
    files.add("times/direct.txt", direct_text(alloc)?.as_str().as_bytes())?;
    files.add("times/walks.txt", walks_text(alloc)?.as_str().as_bytes())
}

/// The demo with this number, as files in memory of which no fetch fails: a feed in the folder
/// `feed`, its times in the folder `times`, and six queries in `queries`. The number draws where
/// trips stop, when they leave, and what is asked.
#[tactic(auto, unfolding(crate::specs::DemoFiles::demo_files, crate::specs::DemoFiles::with_texts))]
pub fn generate(alloc: Global, number: u32) -> Result<MemFiles, NoMemory>
    ensures { IfOk result (λ files. files ≡ demo_memory number) }
{
    let mut files = MemFiles::new(alloc);
    add_trips(alloc, number, &mut files)?;
    add_others(alloc, &mut files)?;
    add_times(alloc, &mut files)?;
    files.add("queries", queries_text(alloc, number)?.as_str().as_bytes())?;
    Ok(files)
}
