// What the scanner has read last, and so what may come.

/// What a string is: a value, or the name of a member.
#[derive(Clone, Copy)]
pub enum Role {
    Value,
    Name,
}

/// What is left to read of `null`, `true` or `false`.
#[derive(Clone, Copy)]
pub enum Spelling {
    Ull,
    Ll,
    L,
    Rue,
    Ue,
    E,
    Alse,
    Lse,
    Se,
}

/// What was read last. The arrays and objects that are open stand apart, and the one that was
/// opened last does not count among them before its first item or member.
#[derive(Clone, Copy)]
pub enum State {
    BeforeValue,
    AfterOpenArray,
    AfterOpenObject,
    BeforeName,
    AfterName,
    AfterValue,
    InString(Role),
    AfterBackslash(Role),
    /// In an escape by number, with so many digits to come after the next.
    InUnit(u8, Role),
    InLiteral(Spelling),
    AfterMinus,
    AfterNought,
    InWhole,
    AfterPoint,
    InFraction,
    AfterExponent,
    AfterSign,
    InPower,
}

/// An array or an object that is open.
#[derive(Clone, Copy)]
pub enum Bracket {
    Square,
    Curly,
}
