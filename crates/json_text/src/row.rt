// What is kept of a value.

use crate::kind::JsonKind;

/// A value of the text. Places are offsets in bytes.
#[derive(Clone, Copy)]
pub struct Row {
    pub kind: JsonKind,
    /// Of its first byte.
    pub place: u32,
    /// Behind its last byte, and of an array or an object behind the opening bracket.
    pub end: u32,
    /// The number of the first node that is neither it nor within it.
    pub next: u32,
    /// Of its name between the quotation marks, where it is a member's value.
    pub name_from: u32,
    pub name_to: u32,
}
