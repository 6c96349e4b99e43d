// A scanned text, and what stands in it.

ghost use Rattle.std.specs.Prelude.{◌≡◌, ℕ, ◌^◌, ◌<◌, List, length, map, IfErr, IfOk, IsOkUnless};
ghost use Rattle.json_text.specs.Answer.{IsRefusal, IsRefusedWith};
ghost use Rattle.json_text.specs.Content.{AreCopied, AreRowsOf};
ghost use Rattle.json_text.specs.Grammar.{IsJsonWithin, text_bytes};
ghost use Rattle.json_text.specs.Machine as Machine;
ghost use Rattle.json_text.specs.Node.{Node, HasArray, HasNode, HasNumber, HasObject, HasString, IsFirstNamed, IsNode, array_items, kind_of, number_text, object_members};
ghost use Rattle.json_text.specs.StringText.{string_text};
ghost use Rattle.json_text.specs.Progress.{notes_of};
ghost use Rattle.json_text.specs.Recording.{no_notes, recorded};
ghost use Rattle.json_text.specs.Refusal.{IsSyntaxFault, IsTooDeep, greatest_depth};
ghost use Rattle.json_text.specs.Syntax.{Items, Mark, Members, Number, Text, array, number, object, string};

use crate::copies::Copies;
use crate::items::JsonItems;
use crate::kind::JsonKind;
use crate::refusal::ScanRefusal;
use crate::row::Row;
use crate::scanner::Scanner;
use crate::{members, strings};
use std::alloc::Global;
use std::marker::Model;

/// Reads all bytes.
fn read_all(alloc: Global, bytes: &[u8]) -> Result<Scanner, ScanRefusal>
    requires { length bytes.now < 2 ^ 32 }
    ensures json { IfOk result (λ _. IsJsonWithin greatest_depth bytes.now) }
    ensures notes { IfOk result (λ s. notes_of s ≡ recorded Machine.start no_notes 0 bytes.now) }
    ensures refused { IfErr result (IsRefusal bytes.now) }
{
    let mut scanner = Scanner::new(alloc);
    for (at, byte) in bytes.iter().enumerate() {
        scanner.read(at as u32, *byte)?;
    }
    if scanner.finish(bytes.len() as u32) {
        Ok(scanner)
    } else {
        Err(ScanRefusal::Syntax {
            at: bytes.len() as u64,
        })
    }
}

fn rows_of(alloc: Global, bytes: &[u8]) -> Result<Vec<Row>, ScanRefusal>
    requires { length bytes.now < 2 ^ 32 }
    ensures json { IfOk result (λ _. IsJsonWithin greatest_depth bytes.now) }
    ensures rows { IfOk result (λ rows. AreRowsOf bytes.now rows.items) }
    ensures refused { IfErr result (IsRefusal bytes.now) }
{
    let scanner = read_all(alloc, bytes)?;
    Ok(scanner.into_rows())
}

/// The texts of all strings where an escape stands, and of all such names.
#[derive(Drop)]
struct Strings {
    texts: Copies,
    names: Copies,
}

fn strings_of(alloc: Global, text: &str, rows: &[Row]) -> Result<Strings, ScanRefusal>
    requires json { IsJsonWithin greatest_depth text.now }
    requires rows { AreRowsOf text.now rows.now }
    ensures copies { IfOk result
        (λ strings. AreCopied text.now rows.now strings.texts strings.names (length rows.now)) }
    ensures memory { IfErr result (λ e. e ≡ ScanRefusal.NoMemory) }
{
    let mut texts = Copies::new(alloc);
    let mut names = Copies::new(alloc);
    for row in rows {
        let copy = strings::text_copy(alloc, text, *row)?;
        texts.push(copy)?;
        let copy = strings::name_copy(alloc, text, *row)?;
        names.push(copy)?;
    }
    Ok(Strings { texts, names })
}

/// A scanned JSON text, which contracts see as its bytes. Its nodes are its values in the order of
/// their first bytes, numbered from 0.
#[derive(Drop)]
pub struct JsonText<'a> {
    text: &'a str,
    rows: Vec<Row>,
    strings: Strings,
}

impl<'a> Model for JsonText<'a> {
    ghost use Rattle.std.specs.Prelude.{List, ℕ};
    ghost use Rattle.json_text.specs.Content.{IsContent};

    ghost Value = { List ℕ };

    ghost view = { λ json. json.text.now };

    ghost invariant = { λ json.
        IsContent json.text.now json.rows.items json.strings.texts json.strings.names };
}

impl<'a> JsonText<'a> {
    /// Reads a JSON text (RFC 8259) in which no more than 64 arrays and objects are open at once,
    /// and refuses every other: at its first byte that no JSON text has there, or at the bracket
    /// that opens one too many, whichever comes first. Strings and numbers are lent from the text,
    /// and only what has escapes is copied.
    pub fn scan(alloc: Global, text: &'a str) -> Result<JsonText<'a>, ScanRefusal>
        requires { length text.now < 2 ^ 32 }
        ensures value { IfOk result (λ json. json ≡ text.now) }
        ensures json { IfOk result (λ _. IsJsonWithin greatest_depth text.now) }
        ensures refused { IfErr result (IsRefusal text.now) }

        // Each answer comes where it is true, but for want of memory.
        ensures accepts { IsJsonWithin greatest_depth text.now
            → IsOkUnless result ScanRefusal.NoMemory }
        ensures syntax { (at : ℕ) → IsSyntaxFault text.now at
            → IsRefusedWith result (ScanRefusal.Syntax at) }
        ensures depth { (at : ℕ) → IsTooDeep text.now at
            → IsRefusedWith result (ScanRefusal.Depth at) }
    {
        JsonText::scanned(alloc, text)
    }

    fn scanned(alloc: Global, text: &'a str) -> Result<JsonText<'a>, ScanRefusal>
        requires { length text.now < 2 ^ 32 }
        ensures value { IfOk result (λ json. json ≡ text.now) }
        ensures json { IfOk result (λ _. IsJsonWithin greatest_depth text.now) }
        ensures refused { IfErr result (IsRefusal text.now) }
    {
        let rows = rows_of(alloc, text.as_bytes())?;
        let strings = strings_of(alloc, text, &rows)?;
        Ok(JsonText {
            text,
            rows,
            strings,
        })
    }

    /// The node of the text's value.
    pub fn root(&self) -> u32
        ensures number { result ≡ 0 }
        ensures node { HasNode self.now result }
        ensures value { (text : Text) → text_bytes text ≡ self.now
            → IsNode self.now result (record { place = length text.before; value = text.value }) }
    {
        let _ = &self.text;
        0
    }

    pub fn kind(&self, node: u32) -> JsonKind
        requires { HasNode self.now node }
        ensures { (is : Node) → IsNode self.now node is → result ≡ kind_of is.value }
    {
        self.rows[node as usize].kind
    }

    /// The offset of the value's first byte.
    pub fn place(&self, node: u32) -> u64
        requires { HasNode self.now node }
        ensures { (is : Node) → IsNode self.now node is → result ≡ is.place }
    {
        u64::from(self.rows[node as usize].place)
    }

    /// The items of an array.
    pub fn items(&self, node: u32) -> JsonItems<'_>
        requires { HasArray self.now node }
        ensures { (place : ℕ) (between : Items)
            → IsNode self.now node (record { place = place; value = array between })
            → result ≡ map (λ item. item.number) (array_items between node place) }
    {
        let end = self.rows[node as usize].next;
        JsonItems::new(&self.rows, node + 1, end)
    }

    /// The value of the first member with the name, or None where the object has none. Names are
    /// compared after their escapes are read.
    pub fn member(&self, node: u32, name: &str) -> Option<u32>
        requires { HasObject self.now node }
        ensures { (place : ℕ) (between : Members)
            → IsNode self.now node (record { place = place; value = object between })
            → IsFirstNamed (object_members between node place) name.now result }
    {
        let end = self.rows[node as usize].next;
        members::first_named(
            self.text,
            &self.rows,
            &self.strings.names,
            node + 1,
            end,
            name,
        )
    }

    /// A string's text, with its escapes read. Half a surrogate pair is read as U+FFFD.
    pub fn text_of(&self, node: u32) -> &str
        requires { HasString self.now node }
        ensures { (place : ℕ) (marks : List Mark)
            → IsNode self.now node (record { place = place; value = string marks })
            → result.now ≡ string_text marks }
    {
        let row = self.rows[node as usize];
        let copy = self.strings.texts.get(node as usize);
        strings::text_or(self.text, row.place as usize, row.end as usize - 1, copy)
    }

    /// A number's own characters.
    pub fn number_of(&self, node: u32) -> &str
        requires { HasNumber self.now node }
        ensures { (place : ℕ) (n : Number)
            → IsNode self.now node (record { place = place; value = number n })
            → result.now ≡ number_text n }
    {
        let row = self.rows[node as usize];
        strings::number_text(self.text, row.place as usize, row.end as usize)
    }
}
