// Ids: their escapes, and their numbers by first appearance.

use feed_meaning::{Ids, ids_in};
use feed_tables::Table;
use field_text::{UnescapeError, escape_id, unescape_id, write_number};
use flex_model::{NoMemory, Text};
use std::alloc::Global;
use std::test::Fail;

#[test]
fn escapes_are_read_back(rt: HostRuntime) -> Result<(), Fail> {
    let mut text = Text::new(rt.alloc());
    escape_id("Høj 5%", &mut text)?;
    assert_eq!(rt; text.as_str(), "H%C3%B8j%205%25");
    let mut id = Text::new(rt.alloc());
    unescape_id(rt.alloc(), text.as_str(), &mut id)?;
    assert_eq!(rt; id.as_str(), "Høj 5%");
    for text in ["%41", "%c3%b8", "%FF", "%C3", "%2", "a b", "ø", ""] {
        let refused = unescape_id(rt.alloc(), text, &mut id);
        assert_eq!(rt; refused, Err(UnescapeError::BadEscape));
    }
    assert_eq!(rt; id.as_str(), "Høj 5%");
    Ok(())
}

#[test]
fn ids_are_numbered_by_first_appearance(rt: HostRuntime) -> Result<(), Fail> {
    let table = Table::read(rt.alloc(), b"name,trip_id\nx,T\ny, S \nz,\nw,T\n")?;
    let mut ids = ids_in(rt.alloc(), &table, "trip_id")?;
    assert_eq!(rt; ids.len(), 2);
    assert_eq!(rt; ids.index_of("S"), Some(1));
    assert_eq!(rt; ids.index_of("x"), None);
    assert!(rt; ids.note("S")?);
    assert!(rt; !ids.note("U")?);
    assert!(rt; ids.has("U"));
    assert_eq!(rt; ids.at(2), Some("U"));
    assert!(rt; ids_in(rt.alloc(), &table, "stop_id")?.is_empty());
    Ok(())
}

// A table of one column, whose records are the numbers below this one.
fn numbers(alloc: Global, count: u64) -> Result<Text, NoMemory> {
    let mut text = Text::new(alloc);
    text.append("trip_id\n")?;
    for number in 0..count {
        write_number(number, &mut text)?;
        text.append("\n")?;
    }
    Ok(text)
}

#[test]
fn many_ids_are_found_again(rt: HostRuntime) -> Result<(), Fail> {
    let text = numbers(rt.alloc(), 70_000)?;
    let bytes = text.as_str().as_bytes();
    assert!(rt; bytes.len() < 1_000_000);
    let table = Table::read(rt.alloc(), bytes)?;
    let mut ids = Ids::new(rt.alloc());
    for row in table.rows() {
        assert!(rt; !ids.note(row.field(0))?);
    }
    assert_eq!(rt; ids.len(), 70_000);
    for (number, row) in table.rows().enumerate() {
        let id = row.field(0);
        assert_eq!(rt; ids.index_of(id).map(u64::from), Some(number as u64));
        assert!(rt; ids.has(id));
    }
    assert!(rt; !ids.has("70000"));
    assert!(rt; ids.note("69999")?);
    Ok(())
}
