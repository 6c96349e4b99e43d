// Words as ids: a text is decoded, and is an escape where the id is encoded so.

ghost use Rattle.std.specs.Prelude.{◌≡◌, Err, OnErr, OnOk};
ghost use Rattle.field_text.specs.Escapes.{IsNoEscape, Unescapes};

use crate::escape::ESCAPED;
use flex_model::Text;
use percent_encoding::{DecodeError, percent_decode_str, utf8_percent_encode};
use std::alloc::Global;

/// Why a text isn't unescaped.
#[derive(Clone, Copy, Debug, PartialEq, Eq)]
pub enum UnescapeError {
    /// The text is the escape of no id.
    BadEscape,
    /// Memory ran out.
    NoMemory,
}

/// Appends the id whose escape a text is. `BadEscape` comes exactly where the text is the escape of
/// no id, which is a text and isn't empty. After an error the text is as it was.
pub fn unescape_id(alloc: Global, text: &str, into: &mut Text) -> Result<(), UnescapeError>
    ensures ok { OnOk result (Unescapes text.now into.old into.new) }
    ensures bad { result ≡ Err UnescapeError.BadEscape → IsNoEscape text.now }
    ensures err { OnErr result (into.new ≡ into.old) }
{
    if text.is_empty() {
        return Err(UnescapeError::BadEscape);
    }
    let decoded = match percent_decode_str(text).decode_utf8(alloc) {
        Ok(decoded) => decoded,
        Err(DecodeError::Utf8(_)) => return Err(UnescapeError::BadEscape),
        Err(DecodeError::OutOfMemory) => return Err(UnescapeError::NoMemory),
    };
    let id = decoded.as_str();
    let Ok(escaped) = utf8_percent_encode(id, ESCAPED).into_cow(alloc) else {
        return Err(UnescapeError::NoMemory);
    };
    if escaped.as_str() != text {
        return Err(UnescapeError::BadEscape);
    }
    let Ok(()) = into.append(id) else {
        return Err(UnescapeError::NoMemory);
    };
    Ok(())
}
