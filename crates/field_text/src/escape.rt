// Ids as words: the kit's percent-encoding, by a set of bytes of this project's own.

ghost use Rattle.std.specs.Prelude.{◌≡◌, ◌≢◌, ◌++◌, [], OnErr, OnOk};
ghost use Rattle.field_text.specs.Grammars.{escape};

use flex_model::{NoMemory, Text};
use percent_encoding::{AsciiSet, CONTROLS, ascii_set, utf8_percent_encode};

// The bytes of ASCII that are escaped: the controls, the space and %.
pub(crate) const ESCAPED: AsciiSet = ascii_set!(CONTROLS.add(b' ').add(b'%'));

/// Appends the escape of an id, which isn't empty: each byte from ! to ~ other than % as it is, and
/// each other byte as % and two hexadecimal digits with capital letters. Where memory runs out, the
/// text is as it was.
pub fn escape_id(id: &str, into: &mut Text) -> Result<(), NoMemory>
    requires { id.now ≢ [] }
    ensures ok { OnOk result (into.new ≡ into.old ++ escape id.now) }
    ensures err { OnErr result (into.new ≡ into.old) }
{
    let old_len = into.as_str().len();
    for piece in utf8_percent_encode(id, ESCAPED) {
        if into.append(piece).is_err() {
            into.cut(old_len);
            return Err(NoMemory);
        }
    }
    Ok(())
}
