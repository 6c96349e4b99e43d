// Laws of the definitions alone: what is accepted is sound. Each function has an empty body, and
// its contract is the law.

ghost use Rattle.feed_meaning.specs.Soundness.{AcceptedFeedsAreSound, AcceptedQueriesAreSound, AcceptedTimesAreSound, WalkedFeaturesAreSound};

/// A feed folder without faults holds a sound feed, if its zones are read as sound features.
pub fn accepted_feeds_are_sound()
    ensures { AcceptedFeedsAreSound }
{}

/// The walk over locations.geojson gives sound features, however its text is scanned.
pub fn walked_features_are_sound()
    ensures { WalkedFeaturesAreSound }
{}

/// A times folder without faults holds times that are sound for the feed.
pub fn accepted_times_are_sound()
    ensures { AcceptedTimesAreSound }
{}

/// Beside a sound feed a query file without faults holds sound queries.
pub fn accepted_queries_are_sound()
    ensures { AcceptedQueriesAreSound }
{}
