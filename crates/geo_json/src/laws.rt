// Laws of the definitions alone: the contract of each function is the law.

ghost use Rattle.geo_json.specs.Laws.{FeaturesAreFew, TextsHaveScans};

use json_text::{
    depth_is_found, fault_is_found, machine_accepts_the_grammar, machine_accepts_within,
    prefix_is_alive,
};

/// Each text has a scan, so that the contract of `read_zones` speaks of every text.
pub fn texts_have_scans()
    ensures { TextsHaveScans }
{
    machine_accepts_within();
    machine_accepts_the_grammar();
    prefix_is_alive();
    fault_is_found();
    depth_is_found();
}

/// A text of fewer than 2^32 bytes has fewer than 2^32 features.
pub fn features_are_few()
    ensures { FeaturesAreFew }
{}
