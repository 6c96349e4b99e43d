// The words of printed lines.

ghost use Rattle.std.specs.Prelude.{◌≡◌, ◌∷◌, ◌++◌, All, IfSome, OnErr, OnOk, map};
ghost use Rattle.std.specs.List.{flat_map};
ghost use Rattle.std.specs.Option.{option_to_list};
ghost use Rattle.query_io.specs.AnswerText as Lines;
ghost use Rattle.query_io.specs.AnswerText.{deadline_text, line};
ghost use Rattle.query_io.specs.Printable.{IsPrintableDeadline};
ghost use Rattle.query_io.specs.Word.{IsPrintableWord, spaced, word_text};

use field_text::{escape_id, write_date, write_moment, write_number};
use flex_model::{Deadline, Moment, NoMemory, Text};

/// A word of a printed line after its first one.
#[derive(Clone, Copy)]
pub enum Word<'a> {
    /// An id, which is escaped.
    Id(&'a str),
    /// A text as it stands.
    Plain(&'a str),
    /// A day, in days since 1970-01-01, printed as YYYYMMDD.
    Day(i32),
    /// A moment, in seconds since 1970-01-01T00:00:00Z, printed as YYYY-MM-DDTHH:MM:SSZ.
    At(Moment),
    /// A moment, or `never`.
    Until(Deadline),
    /// A number in decimal digits.
    Number(u64),
}

// Appends a moment, or `never`.
fn write_deadline(deadline: Deadline, into: &mut Text) -> Result<(), NoMemory>
    requires { IsPrintableDeadline deadline }
    ensures ok { OnOk result (into.new ≡ into.old ++ deadline_text deadline) }
    ensures err { OnErr result (into.new ≡ into.old) }
{
    match deadline {
        Deadline::At(moment) => write_moment(moment, into),
        Deadline::Never => into.append("never"),
    }
}

// Appends a word.
fn write_word(word: &Word<'_>, into: &mut Text) -> Result<(), NoMemory>
    requires { IsPrintableWord word.now }
    ensures ok { OnOk result (into.new ≡ into.old ++ word_text word.now) }
    ensures err { OnErr result (into.new ≡ into.old) }
{
    match *word {
        Word::Id(id) => escape_id(id, into),
        Word::Plain(text) => into.append(text),
        Word::Day(day) => write_date(day, into),
        Word::At(moment) => write_moment(moment, into),
        Word::Until(deadline) => write_deadline(deadline, into),
        Word::Number(number) => write_number(number, into),
    }
}

// Appends a space and a word.
fn write_spaced(word: &Word<'_>, into: &mut Text) -> Result<(), NoMemory>
    requires { IsPrintableWord word.now }
    ensures ok { OnOk result (into.new ≡ into.old ++ spaced word.now) }
    ensures err { OnErr result (into.new ≡ into.old) }
{
    let old_len = into.as_str().len();
    into.append(" ")?;
    if write_word(word, into).is_err() {
        into.cut(old_len);
        return Err(NoMemory);
    }
    Ok(())
}

// Appends words, each after a space.
fn write_words(words: &[Word<'_>], into: &mut Text) -> Result<(), NoMemory>
    requires { All IsPrintableWord words.now }
    ensures ok { OnOk result (into.new ≡ into.old ++ flat_map spaced words.now) }
    ensures err { OnErr result (into.new ≡ into.old) }
{
    let old_len = into.as_str().len();
    for word in words {
        if write_spaced(word, into).is_err() {
            into.cut(old_len);
            return Err(NoMemory);
        }
    }
    Ok(())
}

/// A word, where it is wanted.
pub fn word_if<'a>(wanted: bool, word: Word<'a>) -> Option<Word<'a>>
    requires { IsPrintableWord word }
    ensures printable { IfSome result IsPrintableWord }
    ensures text { map word_text (option_to_list result)
        ≡ Lines.word_if wanted (word_text word.entry) }
{
    if wanted { Some(word) } else { None }
}

// Appends a word after a space, if there is one.
fn write_last(word: Option<Word<'_>>, into: &mut Text) -> Result<(), NoMemory>
    requires { IfSome word IsPrintableWord }
    ensures ok { OnOk result (into.new ≡ into.old ++ flat_map spaced (option_to_list word.entry)) }
    ensures err { OnErr result (into.new ≡ into.old) }
{
    match word {
        Some(word) => write_spaced(&word, into),
        None => Ok(()),
    }
}

/// Appends a line: what it tells, its further words, and a last one that not every line has. Words
/// are parted by one space, and a line feed ends the line. Where memory runs out, the text is as it
/// was.
pub fn write_line(
    kind: &str,
    words: &[Word<'_>],
    last: Option<Word<'_>>,
    into: &mut Text,
) -> Result<(), NoMemory>
    requires words { All IsPrintableWord words.now }
    requires last { IfSome last IsPrintableWord }
    ensures ok { OnOk result (into.new ≡ into.old
        ++ line (kind.now ∷ map word_text (words.now ++ option_to_list last.entry))) }
    ensures err { OnErr result (into.new ≡ into.old) }
{
    let old_len = into.as_str().len();
    into.append(kind)?;
    if write_words(words, into).is_err()
        || write_last(last, into).is_err()
        || into.append("\n").is_err()
    {
        into.cut(old_len);
        return Err(NoMemory);
    }
    Ok(())
}
