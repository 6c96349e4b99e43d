// The strings of a text.

ghost use Rattle.std.specs.Prelude.{◌≡◌, ℕ, ◌+◌, ◌-◌, ◌<◌, Option, slice_get, string_bytes, IfOk};
ghost use Rattle.std.specs.Option.{option_copied, option_map};
ghost use Rattle.std.specs.List.{slice_range};
ghost use Rattle.json_text.specs.Content.{HasNumberAt, HasName, HasStringAt, HasText, text_or};
ghost use Rattle.json_text.specs.Unescaping.{HasMarks};

use crate::kind::JsonKind;
use crate::row::Row;
use crate::unescape;
use std::alloc::{AllocError, Global};

/// What stands between two quotation marks.
pub fn between<'a>(text: &'a str, place: usize, last: usize) -> &'a str
    requires { HasStringAt text.now place last }
    ensures bytes { result.now ≡ slice_range text.now (place + 1) last }
    ensures marks { HasMarks result.now }
{
    &text[place + 1..last]
}

/// The string that the row stands for, where an escape stands in it.
pub fn text_copy(alloc: Global, text: &str, row: Row) -> Result<Option<String>, AllocError>
    requires { row.kind ≡ JsonKind.String → HasStringAt text.now row.place (row.end - 1) }
    ensures { IfOk result (λ copy. HasText text.now row (option_map string_bytes copy)) }
{
    if row.kind != JsonKind::String {
        return Ok(None);
    }
    let raw = between(text, row.place as usize, row.end as usize - 1);
    unescape::read(alloc, raw)
}

/// The row's name, where an escape stands in it.
pub fn name_copy(alloc: Global, text: &str, row: Row) -> Result<Option<String>, AllocError>
    requires { 0 < row.name_from → HasStringAt text.now (row.name_from - 1) row.name_to }
    ensures { IfOk result (λ copy. HasName text.now row (option_map string_bytes copy)) }
{
    if row.name_from == 0 {
        return Ok(None);
    }
    let raw = between(text, row.name_from as usize - 1, row.name_to as usize);
    unescape::read(alloc, raw)
}

/// The text of a string, which is lent where it has no copy.
pub fn text_or<'a>(text: &'a str, place: usize, last: usize, copy: Option<&'a str>) -> &'a str
    requires { HasStringAt text.now place last }
    ensures { result.now ≡ text_or text.entry.now place last (option_copied copy.entry) }
{
    match copy {
        None => between(text, place, last),
        Some(copy) => copy,
    }
}

/// The name of a member's value.
pub fn name_of<'a>(text: &'a str, row: Row, copy: Option<&'a str>) -> &'a str
    requires some { 0 < row.name_from }
    requires stands { HasStringAt text.now (row.name_from - 1) row.name_to }
    ensures { result.now
        ≡ text_or text.entry.now (row.name_from - 1) row.name_to (option_copied copy.entry) }
{
    text_or(text, row.name_from as usize - 1, row.name_to as usize, copy)
}

/// The characters of a number.
pub fn number_text<'a>(text: &'a str, place: usize, last: usize) -> &'a str
    requires { HasNumberAt text.now place last }
    ensures { result.now ≡ slice_range text.now place last }
{
    &text[place..last]
}
