// Laws of the definitions alone: each function has an empty body, and its contract is the law.

ghost use Rattle.journey_rebuild.specs.PrintableParts.{FoundPartsArePrintable};

/// Over sound values, every part that a search finds has a printed text, where its labels can be counted.
pub fn found_parts_are_printable()
    ensures { FoundPartsArePrintable }
{}
