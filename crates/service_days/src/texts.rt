// The text of a zone's POSIX rule.

ghost use Rattle.std.specs.Prelude.{◌≡◌, ◌≤◌, ◌<◌, ◌-◌, drop, length, take, get_or, true};
ghost use Rattle.service_days.specs.ZoneTexts.{trimmed, without_leading, without_trailing, zone_text};
ghost use Rattle.service_days.specs.ZoneTexts as Texts;

// Whether a byte is a space, a tab, a line feed or a carriage return.
fn is_blank(byte: u8) -> bool
    ensures { result ≡ Texts.is_blank byte }
{
    byte == b' ' || byte == b'\t' || byte == b'\n' || byte == b'\r'
}

// How many blanks a text starts with.
fn leading_blanks(text: &[u8]) -> usize
    ensures value { drop result text.now ≡ without_leading text.now }
    ensures bound { result ≤ length text.now }
    ensures blank { 0 < result → Texts.is_blank (get_or text.now (result - 1) 0) ≡ true }
{
    let mut count = 0;
    for byte in text {
        if !is_blank(*byte) {
            return count;
        }
        count += 1;
    }
    count
}

// Where the blanks at the end of a text start.
fn unblanked_end(text: &[u8]) -> usize
    ensures value { take result text.now ≡ without_trailing text.now }
    ensures bound { result ≤ length text.now }
    ensures blank { result < length text.now → Texts.is_blank (get_or text.now result 0) ≡ true }
{
    for back in 0..text.len() {
        let end = text.len() - back;
        if !is_blank(text[end - 1]) {
            return end;
        }
    }
    0
}

// The text without the blanks at both ends.
fn trim_blanks(text: &str) -> &str
    ensures { result.now ≡ trimmed text.now }
{
    let start = leading_blanks(text.as_bytes());
    let rest = &text[start..];
    &rest[..unblanked_end(rest.as_bytes())]
}

// The text without one byte order mark at its start.
fn without_mark(text: &str) -> &str
    ensures { result.now ≡ Texts.without_mark text.now }
{
    match text.strip_prefix('\u{feff}') {
        Some(rest) => rest,
        None => text,
    }
}

// The text of a rule, without what surrounds it.
pub(crate) fn rule_text(text: &str) -> &str
    ensures { result.now ≡ zone_text text.now }
{
    trim_blanks(without_mark(text))
}
