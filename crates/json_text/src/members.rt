// The members of an object.

ghost use Rattle.std.specs.Prelude.{◌≡◌, ℕ, ◌<◌, ◌≤◌, List, None, Some, get_or, length, slice_get};
ghost use Rattle.json_text.specs.Content.{HasName};
ghost use Rattle.json_text.specs.Node.{MemberNode, IsFirstNamed};
ghost use Rattle.json_text.specs.Walk.{AreMembers, Rises};
ghost use Rattle.json_text.specs.declared.row.Row.{Row};

use crate::copies::Copies;
use crate::row::Row;
use crate::strings;

/// The first member with the name, from the first node to the end.
pub fn first_named(
    text: &str,
    rows: &[Row],
    names: &Copies,
    first: u32,
    end: u32,
    name: &str,
) -> Option<u32>
    requires rises { Rises rows.now }
    requires within { end ≤ length rows.now }
    requires count { length names.now ≡ length rows.now }
    requires names { (k : ℕ) (row : Row) → k < length rows.now → slice_get rows.now k ≡ Some row
        → HasName text.now row (get_or names.now k None) }
    requires members { (members : List MemberNode)
        × AreMembers rows.now text.now members first end }
    ensures { (members : List MemberNode) → AreMembers rows.now text.now members first end
        → IsFirstNamed members name.now result }
{
    let mut child = first;
    while child < end {
        let row = rows[child as usize];
        if strings::name_of(text, row, names.get(child as usize)) == name {
            return Some(child);
        }
        child = row.next;
    }
    None
}
