// Laws of the definitions alone: each function has an empty body, and its contract is the law.

ghost use Rattle.feed_gen.specs.Laws.{DemoFeedsHaveNoFaults, DemoQueriesHaveNoFaults};
ghost use Rattle.feed_gen.specs.Laws.{DemoTimesHaveNoFaults};

use json_text::texts_are_unambiguous;

/// The feed of the demo has no fault, whatever its number is, in whichever way that agrees with the
/// grammar of JSON the text of its zones is scanned.
pub fn demo_feeds_have_no_faults()
    ensures { DemoFeedsHaveNoFaults }
{
    texts_are_unambiguous();
}

/// The times of the demo have no fault beside its feed, where `UTC0` is a zone.
pub fn demo_times_have_no_faults()
    ensures { DemoTimesHaveNoFaults }
{}

/// The queries of the demo have no fault beside its feed and its times.
pub fn demo_queries_have_no_faults()
    ensures { DemoQueriesHaveNoFaults }
{}
