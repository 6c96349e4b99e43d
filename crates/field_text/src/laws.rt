// Laws of the definitions alone: each function has an empty body, and its contract is the law.

ghost use Rattle.field_text.specs.Laws.{DatesAreReadBack, DatesHaveOneSpelling};
ghost use Rattle.field_text.specs.Laws.{EscapesAreOfOneId, EscapesAreReadBack};
ghost use Rattle.field_text.specs.Laws.{MomentsAreReadBack, MomentsHaveOneSpelling};
ghost use Rattle.field_text.specs.Laws.{NumbersAreReadBack};

/// What is printed of a day is read back as that day.
pub fn dates_are_read_back()
    ensures { DatesAreReadBack }
{}

/// A text that is read as a day is what is printed of it.
pub fn dates_have_one_spelling()
    ensures { DatesHaveOneSpelling }
{}

/// What is printed of a moment is read back as that moment.
pub fn moments_are_read_back()
    ensures { MomentsAreReadBack }
{}

/// A text that is read as a moment is what is printed of it.
pub fn moments_have_one_spelling()
    ensures { MomentsHaveOneSpelling }
{}

/// What is printed of a number is read back as that count.
pub fn numbers_are_read_back()
    ensures { NumbersAreReadBack }
{}

/// No two ids have one escape.
pub fn escapes_are_of_one_id()
    ensures { EscapesAreOfOneId }
{}

/// The escape of an id is unescaped as that id.
pub fn escapes_are_read_back()
    ensures { EscapesAreReadBack }
{}
