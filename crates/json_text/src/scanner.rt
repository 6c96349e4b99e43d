// Reads a text byte by byte, and keeps a row for each of its values.

ghost use Rattle.std.specs.Prelude.{◌≡◌, ℕ, suc, ◌+◌, ◌^◌, ◌≤◌, ◌<◌, List, ◌∷◌, length, vec_len, OnOk, IfErr};
ghost use Rattle.json_text.specs.Machine as Machine;
ghost use Rattle.json_text.specs.Machine.{is_end, stack_of, step};
ghost use Rattle.json_text.specs.Moves.{IsInnermost, frame_of, settled_to, state_after, state_of};
ghost use Rattle.json_text.specs.Progress.{HasRead, IsMoved, IsRefused, machine_of, notes_of, stack_in};
ghost use Rattle.json_text.specs.Recording.{begin_value, close, end_value, enter, finished, no_notes, settled, settled_notes};
ghost use Rattle.json_text.specs.Refusal.{greatest_depth};

use crate::kind::JsonKind;
use crate::moves::{Move, Settling, move_of, settling_of};
use crate::refusal::ScanRefusal;
use crate::row::Row;
use crate::state::{Bracket, Role, State};
use flex_model::limits::MOST_OPEN_LEVELS;
use std::alloc::Global;

/// An array or an object that is open, and the number of its node.
#[derive(Clone, Copy)]
pub struct Frame {
    pub bracket: Bracket,
    pub node: u32,
}

#[derive(Drop)]
pub struct Scanner {
    pub state: State,
    /// The outermost first.
    pub frames: Vec<Frame>,
    pub rows: Vec<Row>,
    /// Of the name that was read last, where its value has not begun.
    pub name_from: u32,
    pub name_to: u32,
}

impl Scanner {
    pub fn new(alloc: Global) -> Scanner
        ensures state { machine_of result ≡ Machine.start }
        ensures notes { notes_of result ≡ no_notes }
    {
        Scanner {
            state: State::BeforeValue,
            frames: Vec::new(alloc),
            rows: Vec::new(alloc),
            name_from: 0,
            name_to: 0,
        }
    }

    pub fn into_rows(self) -> Vec<Row>
        ensures { result.items ≡ self.rows.items }
    {
        let Scanner {
            state: _,
            frames: _,
            rows,
            name_from: _,
            name_to: _,
        } = self;
        rows
    }

    fn innermost(&self) -> Option<Bracket>
        ensures { IsInnermost (stack_in self.now.frames.items) result }
    {
        self.frames.last().map(|frame| frame.bracket)
    }

    /// The value that began last ends there.
    fn end_value(&mut self, end: u32)
        ensures state { self.new.state ≡ self.old.state }
        ensures frames { self.new.frames.items ≡ self.old.frames.items }
        ensures notes { notes_of self.new ≡ end_value end (notes_of self.old) }
        ensures rows { vec_len self.new.rows ≡ vec_len self.old.rows }
    {
        let count = self.rows.len();
        if count > 0 {
            self.rows[count - 1].end = end;
        }
    }

    /// The array or object that was opened last has an item or a member.
    fn enter(&mut self, bracket: Bracket) -> Result<(), ScanRefusal>
        requires { vec_len self.old.rows < 2 ^ 32 }
        ensures frames { OnOk result
            (stack_in self.new.frames.items ≡ frame_of bracket ∷ stack_in self.old.frames.items) }
        ensures notes { OnOk result (notes_of self.new ≡ enter (notes_of self.old)) }
        ensures rows { vec_len self.new.rows ≡ vec_len self.old.rows }
        ensures memory { IfErr result (λ e. e ≡ ScanRefusal.NoMemory) }
    {
        let node = self.rows.len().saturating_sub(1) as u32;
        self.frames.push(Frame { bracket, node })?;
        Ok(())
    }

    /// The innermost array or object is closed.
    fn close(&mut self)
        requires { vec_len self.old.rows < 2 ^ 32 }
        ensures state { machine_of self.new
            ≡ state_after Move.Close (stack_in self.old.frames.items) }
        ensures notes { notes_of self.new ≡ close (notes_of self.old) }
        ensures rows { vec_len self.new.rows ≡ vec_len self.old.rows }
        ensures frames { vec_len self.new.frames ≤ vec_len self.old.frames }
    {
        self.state = State::AfterValue;
        if let Some(frame) = self.frames.pop() {
            let node = frame.node as usize;
            let next = self.rows.len() as u32;
            if node < self.rows.len() {
                self.rows[node].next = next;
            }
        }
    }

    /// What comes before the byte itself.
    fn settle(&mut self, at: u32, byte: u8) -> Result<(), ScanRefusal>
        requires { vec_len self.old.rows < 2 ^ 32 }
        ensures state { OnOk result (machine_of self.new ≡ settled (machine_of self.old) byte) }
        ensures notes { OnOk result
            (notes_of self.new ≡ settled_notes (machine_of self.old) byte at (notes_of self.old)) }
        ensures rows { vec_len self.new.rows ≡ vec_len self.old.rows }
        ensures memory { IfErr result (λ e. e ≡ ScanRefusal.NoMemory) }
    {
        match settling_of(self.state, byte) {
            Settling::Nothing => Ok(()),
            Settling::Enter(bracket) => {
                self.enter(bracket)?;
                self.state = first_state(bracket);
                Ok(())
            }
            Settling::EndNumber => {
                self.end_value(at);
                self.state = State::AfterValue;
                Ok(())
            }
        }
    }

    /// Goes on to the state, unless it opens one array or object too many.
    fn go(&mut self, at: u32, state: State) -> Result<(), ScanRefusal>
        requires { vec_len self.old.frames ≤ greatest_depth }
        ensures state { OnOk result
            (machine_of self.new ≡ state_of state (stack_in self.old.frames.items)) }
        ensures notes { OnOk result (notes_of self.new ≡ notes_of self.old) }
        ensures fits { OnOk result (length (stack_of (machine_of self.new)) ≤ greatest_depth) }
        ensures rows { OnOk result (vec_len self.new.rows ≡ vec_len self.old.rows) }
        ensures deep { IfErr result
            (IsRefused at (state_of state (stack_in self.old.frames.items))) }
    {
        if levels(state, self.frames.len()) > MOST_OPEN_LEVELS {
            return Err(ScanRefusal::Depth { at: u64::from(at) });
        }
        self.state = state;
        Ok(())
    }

    /// A value begins with the byte there.
    fn begin(&mut self, at: u32, kind: JsonKind) -> Result<(), ScanRefusal>
        requires place { at + 1 < 2 ^ 32 }
        requires rows { vec_len self.old.rows + 1 < 2 ^ 32 }
        ensures state { self.new.state ≡ self.old.state }
        ensures frames { self.new.frames.items ≡ self.old.frames.items }
        ensures notes { OnOk result (notes_of self.new ≡ begin_value kind at (notes_of self.old)) }
        ensures rows { OnOk result (vec_len self.new.rows ≡ vec_len self.old.rows + 1) }
        ensures memory { IfErr result (λ e. e ≡ ScanRefusal.NoMemory) }
    {
        let next = self.rows.len() as u32 + 1;
        self.rows.push(Row {
            kind,
            place: at,
            end: at + 1,
            next,
            name_from: self.name_from,
            name_to: self.name_to,
        })?;
        self.name_from = 0;
        self.name_to = 0;
        Ok(())
    }

    fn apply(&mut self, at: u32, the_move: Move) -> Result<(), ScanRefusal>
        requires place { at + 1 < 2 ^ 32 }
        requires rows { vec_len self.old.rows + 1 < 2 ^ 32 }
        requires fits { vec_len self.old.frames ≤ greatest_depth }
        ensures ok { OnOk result (IsMoved self.old self.new at the_move) }
        ensures refused { IfErr result
            (IsRefused at (state_after the_move (stack_in self.old.frames.items))) }
    {
        match the_move {
            Move::To(state) => self.go(at, state),
            Move::Begin(state, kind) => {
                self.go(at, state)?;
                self.begin(at, kind)
            }
            Move::BeginName => {
                self.name_from = at + 1;
                self.state = State::InString(Role::Name);
                Ok(())
            }
            Move::EndName => {
                self.name_to = at;
                self.state = State::AfterName;
                Ok(())
            }
            Move::EndValue => {
                self.end_value(at + 1);
                self.state = State::AfterValue;
                Ok(())
            }
            Move::Close => {
                self.close();
                Ok(())
            }
            Move::Fault => Err(ScanRefusal::Syntax { at: u64::from(at) }),
        }
    }

    /// Reads the byte there.
    pub fn read(&mut self, at: u32, byte: u8) -> Result<(), ScanRefusal>
        requires place { at + 1 < 2 ^ 32 }
        requires rows { vec_len self.old.rows ≤ at }
        requires fits { length (stack_of (machine_of self.old)) ≤ greatest_depth }
        ensures ok { OnOk result (HasRead self.old self.new at byte) }
        ensures refused { IfErr result (IsRefused at (step (machine_of self.old) byte)) }
    {
        self.settle(at, byte)?;
        let innermost = self.innermost();
        self.apply(at, move_of(self.state, innermost, byte))
    }

    /// Ends a number that the text ends with. Says whether a whole text has been read.
    pub fn finish(&mut self, at: u32) -> bool
        ensures ended { result ≡ is_end (machine_of self.old) }
        ensures notes { notes_of self.new ≡ finished (machine_of self.old) at (notes_of self.old) }
    {
        match self.state {
            State::AfterNought | State::InWhole | State::InFraction | State::InPower => {
                self.end_value(at);
            }
            State::AfterValue => {}
            _ => return false,
        }
        self.frames.is_empty()
    }
}

/// How many arrays and objects are open in the state, over those that stand apart.
fn levels(state: State, apart: usize) -> usize
    requires { apart < 2 ^ 32 }
    ensures { (stack : List Machine.Frame) → length stack ≡ apart
        → length (stack_of (state_of state stack)) ≡ result }
{
    match state {
        State::AfterOpenArray | State::AfterOpenObject => apart + 1,
        _ => apart,
    }
}

/// What comes first in an array or an object.
fn first_state(bracket: Bracket) -> State
    ensures { (stack : List Machine.Frame) (before : State)
        → state_of result (frame_of bracket ∷ stack)
        ≡ settled_to before (Settling.Enter bracket) stack }
{
    match bracket {
        Bracket::Square => State::BeforeValue,
        Bracket::Curly => State::BeforeName,
    }
}
