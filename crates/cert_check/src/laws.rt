// Laws of the definitions alone: each function has an empty body, and its contract is the law.

ghost use Rattle.cert_check.specs.Laws.{ReasonsAreFailedTests, ReasonsArePrintable, ValidPartsPass};

/// A part of a certificate is valid just where it passes the test of each reason.
pub fn valid_parts_pass()
    ensures { ValidPartsPass }
{}

/// A part of which a reason is true fails the reason's test, and so isn't valid.
pub fn reasons_are_failed_tests()
    ensures { ReasonsAreFailedTests }
{}

/// Over a sound feed, sound times and a sound query with a sound day table of its own, each reason
/// that is true of a part has a printed text, whatever numbers stand in the part.
pub fn reasons_are_printable()
    ensures { ReasonsArePrintable }
{}
