// Laws of the definitions alone: each function has an empty body, and its contract is the law.

ghost use Rattle.query_io.specs.PrintableAnswers.{ExactAnswersArePrintable};

/// Every exact answer to a sound query over a sound feed, sound times and a sound day table has a
/// printed text.
pub fn exact_answers_are_printable()
    ensures { ExactAnswersArePrintable }
{}
