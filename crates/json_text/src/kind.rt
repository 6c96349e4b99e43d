// What a value is.

/// What a value of a JSON text is.
#[derive(Clone, Copy, Debug, PartialEq, Eq)]
pub enum JsonKind {
    Null,
    False,
    True,
    Number,
    String,
    Array,
    Object,
}
