// What a byte means after what was read last. Nothing is taken or kept here.

ghost use Rattle.std.specs.Prelude.{◌≡◌, List, [], ◌∷◌, ◌==◌, if◌then◌else◌};
ghost use Rattle.json_text.specs.Machine as Machine;
ghost use Rattle.json_text.specs.Moves.{IsInnermost, IsMove, IsSettling, frame_of, literal_of, role_of, state_of};

use crate::byte::{
    is_digit, is_escape, is_exponent, is_first_digit, is_hex_digit, is_plain, is_white,
};
use crate::kind::JsonKind;
use crate::state::{Bracket, Role, Spelling, State};

/// What comes first, before the byte itself.
#[derive(Clone, Copy)]
pub enum Settling {
    Nothing,
    /// The array or object that was opened last has an item or a member.
    Enter(Bracket),
    /// The number ended before the byte.
    EndNumber,
}

/// What the byte does.
#[derive(Clone, Copy)]
pub enum Move {
    To(State),
    /// A value of the kind begins.
    Begin(State, JsonKind),
    BeginName,
    EndName,
    /// The literal or the string ends with the byte.
    EndValue,
    /// The innermost array or object is closed.
    Close,
    Fault,
}

pub fn settling_of(state: State, byte: u8) -> Settling
    ensures { IsSettling state byte result }
{
    match state {
        State::AfterOpenArray => {
            if is_white(byte) || byte == b']' {
                Settling::Nothing
            } else {
                Settling::Enter(Bracket::Square)
            }
        }
        State::AfterOpenObject => {
            if byte == b'"' {
                Settling::Enter(Bracket::Curly)
            } else {
                Settling::Nothing
            }
        }
        State::AfterNought => {
            if byte == b'.' || is_exponent(byte) {
                Settling::Nothing
            } else {
                Settling::EndNumber
            }
        }
        State::InWhole => {
            if is_digit(byte) || byte == b'.' || is_exponent(byte) {
                Settling::Nothing
            } else {
                Settling::EndNumber
            }
        }
        State::InFraction => {
            if is_digit(byte) || is_exponent(byte) {
                Settling::Nothing
            } else {
                Settling::EndNumber
            }
        }
        State::InPower => {
            if is_digit(byte) {
                Settling::Nothing
            } else {
                Settling::EndNumber
            }
        }
        _ => Settling::Nothing,
    }
}

fn before_value(byte: u8) -> Move
    ensures { (stack : List Machine.Frame) → IsMove (Machine.before_value stack) stack byte result }
{
    if is_first_digit(byte) {
        return Move::Begin(State::InWhole, JsonKind::Number);
    }
    if byte == b'0' {
        return Move::Begin(State::AfterNought, JsonKind::Number);
    }
    if byte == b'-' {
        return Move::Begin(State::AfterMinus, JsonKind::Number);
    }
    if byte == b'"' {
        return Move::Begin(State::InString(Role::Value), JsonKind::String);
    }
    if byte == b'[' {
        return Move::Begin(State::AfterOpenArray, JsonKind::Array);
    }
    if byte == b'{' {
        return Move::Begin(State::AfterOpenObject, JsonKind::Object);
    }
    if byte == b'n' {
        return Move::Begin(State::InLiteral(Spelling::Ull), JsonKind::Null);
    }
    if byte == b't' {
        return Move::Begin(State::InLiteral(Spelling::Rue), JsonKind::True);
    }
    if byte == b'f' {
        return Move::Begin(State::InLiteral(Spelling::Alse), JsonKind::False);
    }
    if is_white(byte) {
        return Move::To(State::BeforeValue);
    }
    Move::Fault
}

fn after_open_array(byte: u8) -> Move
    ensures { (stack : List Machine.Frame)
        → IsMove (Machine.after_open_array stack) stack byte result }
{
    if is_white(byte) {
        return Move::To(State::AfterOpenArray);
    }
    if byte == b']' {
        return Move::To(State::AfterValue);
    }
    Move::Fault
}

fn after_open_object(byte: u8) -> Move
    ensures { (stack : List Machine.Frame)
        → IsMove (Machine.after_open_object stack) stack byte result }
{
    if is_white(byte) {
        return Move::To(State::AfterOpenObject);
    }
    if byte == b'}' {
        return Move::To(State::AfterValue);
    }
    Move::Fault
}

fn before_name(byte: u8) -> Move
    ensures { (stack : List Machine.Frame) → IsMove (Machine.before_name stack) stack byte result }
{
    if is_white(byte) {
        return Move::To(State::BeforeName);
    }
    if byte == b'"' {
        return Move::BeginName;
    }
    Move::Fault
}

fn after_name(byte: u8) -> Move
    ensures { (stack : List Machine.Frame) → IsMove (Machine.after_name stack) stack byte result }
{
    if is_white(byte) {
        return Move::To(State::AfterName);
    }
    if byte == b':' {
        return Move::To(State::BeforeValue);
    }
    Move::Fault
}

fn after_item(byte: u8) -> Move
    ensures { (stack : List Machine.Frame)
        → IsMove (Machine.after_value (Machine.in_array ∷ stack)) (Machine.in_array ∷ stack)
        byte result }
{
    if is_white(byte) {
        return Move::To(State::AfterValue);
    }
    if byte == b',' {
        return Move::To(State::BeforeValue);
    }
    if byte == b']' {
        return Move::Close;
    }
    Move::Fault
}

fn after_member(byte: u8) -> Move
    ensures { (stack : List Machine.Frame)
        → IsMove (Machine.after_value (Machine.in_object ∷ stack)) (Machine.in_object ∷ stack)
        byte result }
{
    if is_white(byte) {
        return Move::To(State::AfterValue);
    }
    if byte == b',' {
        return Move::To(State::BeforeName);
    }
    if byte == b'}' {
        return Move::Close;
    }
    Move::Fault
}

fn after_root(byte: u8) -> Move
    ensures { IsMove (Machine.after_value []) [] byte result }
{
    if is_white(byte) {
        return Move::To(State::AfterValue);
    }
    Move::Fault
}

fn after_part(bracket: Bracket, byte: u8) -> Move
    ensures { (stack : List Machine.Frame)
        → IsMove (Machine.after_value (frame_of bracket ∷ stack)) (frame_of bracket ∷ stack)
        byte result }
{
    match bracket {
        Bracket::Square => after_item(byte),
        Bracket::Curly => after_member(byte),
    }
}

fn after_value(innermost: Option<Bracket>, byte: u8) -> Move
    ensures { (stack : List Machine.Frame) → IsInnermost stack innermost
        → IsMove (Machine.after_value stack) stack byte result }
{
    match innermost {
        None => after_root(byte),
        Some(bracket) => after_part(bracket, byte),
    }
}

fn in_string(role: Role, byte: u8) -> Move
    ensures { (stack : List Machine.Frame)
        → IsMove (Machine.in_string (role_of role) stack) stack byte result }
{
    if is_plain(byte) {
        return Move::To(State::InString(role));
    }
    if byte == b'"' {
        return match role {
            Role::Value => Move::EndValue,
            Role::Name => Move::EndName,
        };
    }
    if byte == b'\\' {
        return Move::To(State::AfterBackslash(role));
    }
    Move::Fault
}

fn after_backslash(role: Role, byte: u8) -> Move
    ensures { (stack : List Machine.Frame)
        → IsMove (Machine.after_backslash (role_of role) stack) stack byte result }
{
    if is_escape(byte) {
        return Move::To(State::InString(role));
    }
    if byte == b'u' {
        return Move::To(State::InUnit(3, role));
    }
    Move::Fault
}

fn in_unit(more: u8, role: Role, byte: u8) -> Move
    ensures { (stack : List Machine.Frame)
        → IsMove (Machine.in_unit more (role_of role) stack) stack byte result }
{
    if !is_hex_digit(byte) {
        return Move::Fault;
    }
    if more == 0 {
        Move::To(State::InString(role))
    } else {
        Move::To(State::InUnit(more - 1, role))
    }
}

fn in_literal(rest: Spelling, byte: u8) -> Move
    ensures { (stack : List Machine.Frame) → IsMove (literal_of rest stack) stack byte result }
{
    match rest {
        Spelling::Ull => spelled(byte, b'u', Spelling::Ll),
        Spelling::Ll => spelled(byte, b'l', Spelling::L),
        Spelling::L => ended(byte, b'l'),
        Spelling::Rue => spelled(byte, b'r', Spelling::Ue),
        Spelling::Ue => spelled(byte, b'u', Spelling::E),
        Spelling::E => ended(byte, b'e'),
        Spelling::Alse => spelled(byte, b'a', Spelling::Lse),
        Spelling::Lse => spelled(byte, b'l', Spelling::Se),
        Spelling::Se => spelled(byte, b's', Spelling::E),
    }
}

fn spelled(byte: u8, wanted: u8, rest: Spelling) -> Move
    ensures { result ≡ (if byte == wanted then Move.To (State.InLiteral rest) else Move.Fault) }
{
    if byte == wanted {
        Move::To(State::InLiteral(rest))
    } else {
        Move::Fault
    }
}

fn ended(byte: u8, wanted: u8) -> Move
    ensures { result ≡ (if byte == wanted then Move.EndValue else Move.Fault) }
{
    if byte == wanted {
        Move::EndValue
    } else {
        Move::Fault
    }
}

fn after_minus(byte: u8) -> Move
    ensures { (stack : List Machine.Frame) → IsMove (Machine.after_minus stack) stack byte result }
{
    if is_first_digit(byte) {
        return Move::To(State::InWhole);
    }
    if byte == b'0' {
        return Move::To(State::AfterNought);
    }
    Move::Fault
}

fn after_nought(innermost: Option<Bracket>, byte: u8) -> Move
    ensures { (stack : List Machine.Frame) → IsInnermost stack innermost
        → IsMove (Machine.after_nought stack) stack byte result }
{
    if byte == b'.' {
        return Move::To(State::AfterPoint);
    }
    if is_exponent(byte) {
        return Move::To(State::AfterExponent);
    }
    after_value(innermost, byte)
}

fn in_whole(innermost: Option<Bracket>, byte: u8) -> Move
    ensures { (stack : List Machine.Frame) → IsInnermost stack innermost
        → IsMove (Machine.in_whole stack) stack byte result }
{
    if is_digit(byte) {
        return Move::To(State::InWhole);
    }
    if byte == b'.' {
        return Move::To(State::AfterPoint);
    }
    if is_exponent(byte) {
        return Move::To(State::AfterExponent);
    }
    after_value(innermost, byte)
}

fn after_point(byte: u8) -> Move
    ensures { (stack : List Machine.Frame) → IsMove (Machine.after_point stack) stack byte result }
{
    if is_digit(byte) {
        return Move::To(State::InFraction);
    }
    Move::Fault
}

fn in_fraction(innermost: Option<Bracket>, byte: u8) -> Move
    ensures { (stack : List Machine.Frame) → IsInnermost stack innermost
        → IsMove (Machine.in_fraction stack) stack byte result }
{
    if is_digit(byte) {
        return Move::To(State::InFraction);
    }
    if is_exponent(byte) {
        return Move::To(State::AfterExponent);
    }
    after_value(innermost, byte)
}

fn after_exponent(byte: u8) -> Move
    ensures { (stack : List Machine.Frame)
        → IsMove (Machine.after_exponent stack) stack byte result }
{
    if is_digit(byte) {
        return Move::To(State::InPower);
    }
    if byte == b'+' || byte == b'-' {
        return Move::To(State::AfterSign);
    }
    Move::Fault
}

fn after_sign(byte: u8) -> Move
    ensures { (stack : List Machine.Frame) → IsMove (Machine.after_sign stack) stack byte result }
{
    if is_digit(byte) {
        return Move::To(State::InPower);
    }
    Move::Fault
}

fn in_power(innermost: Option<Bracket>, byte: u8) -> Move
    ensures { (stack : List Machine.Frame) → IsInnermost stack innermost
        → IsMove (Machine.in_power stack) stack byte result }
{
    if is_digit(byte) {
        return Move::To(State::InPower);
    }
    after_value(innermost, byte)
}

/// What the byte does, where nothing is left to settle.
pub fn move_of(state: State, innermost: Option<Bracket>, byte: u8) -> Move
    ensures { (stack : List Machine.Frame) → IsInnermost stack innermost
        → IsMove (state_of state stack) stack byte result }
{
    match state {
        State::BeforeValue => before_value(byte),
        State::AfterOpenArray => after_open_array(byte),
        State::AfterOpenObject => after_open_object(byte),
        State::BeforeName => before_name(byte),
        State::AfterName => after_name(byte),
        State::AfterValue => after_value(innermost, byte),
        State::InString(role) => in_string(role, byte),
        State::AfterBackslash(role) => after_backslash(role, byte),
        State::InUnit(more, role) => in_unit(more, role, byte),
        State::InLiteral(rest) => in_literal(rest, byte),
        State::AfterMinus => after_minus(byte),
        State::AfterNought => after_nought(innermost, byte),
        State::InWhole => in_whole(innermost, byte),
        State::AfterPoint => after_point(byte),
        State::InFraction => in_fraction(innermost, byte),
        State::AfterExponent => after_exponent(byte),
        State::AfterSign => after_sign(byte),
        State::InPower => in_power(innermost, byte),
    }
}
