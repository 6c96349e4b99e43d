// The bytes of a table and the texts of its fields.

ghost use Rattle.std.specs.Prelude.{◌≡◌, ◌≤◌, ◌<◌, ◌-◌, drop, length, take, get_or, true};
ghost use Rattle.csv.specs.Reading.{strip_bom};
ghost use Rattle.feed_tables.specs.Fields.{trimmed, without_leading, without_trailing};
ghost use Rattle.feed_tables.specs.Fields as Fields;

// The bytes without one byte order mark at their start.
pub(crate) fn without_mark(bytes: &[u8]) -> &[u8]
    ensures { result.now ≡ strip_bom bytes.now }
{
    match bytes.strip_prefix(&[0xEF, 0xBB, 0xBF]) {
        Some(rest) => rest,
        None => bytes,
    }
}

// Whether a byte is a space or a tab.
fn is_blank(byte: u8) -> bool
    ensures { result ≡ Fields.is_blank byte }
{
    byte == b' ' || byte == b'\t'
}

// How many blanks a field starts with.
fn leading_blanks(field: &[u8]) -> usize
    ensures value { drop result field.now ≡ without_leading field.now }
    ensures bound { result ≤ length field.now }
    ensures blank { 0 < result → Fields.is_blank (get_or field.now (result - 1) 0) ≡ true }
{
    let mut count = 0;
    for byte in field {
        if !is_blank(*byte) {
            return count;
        }
        count += 1;
    }
    count
}

// Where the blanks at the end of a field start.
fn unblanked_end(field: &[u8]) -> usize
    ensures value { take result field.now ≡ without_trailing field.now }
    ensures bound { result ≤ length field.now }
    ensures blank { result < length field.now → Fields.is_blank (get_or field.now result 0) ≡ true }
{
    for back in 0..field.len() {
        let end = field.len() - back;
        if !is_blank(field[end - 1]) {
            return end;
        }
    }
    0
}

// The field without spaces and tabs at both ends.
pub(crate) fn trim_blanks(field: &str) -> &str
    ensures { result.now ≡ trimmed field.now }
{
    let start = leading_blanks(field.as_bytes());
    let rest = &field[start..];
    &rest[..unblanked_end(rest.as_bytes())]
}
