// Tables of records.

use feed_tables::{RowView, Table, TableRefusal};
use std::process::Abort;
use std::test::Fail;

// A row's number and its fields in the first three columns.
fn assert_row(rt: &impl Abort, row: &RowView<'_>, number: u64, fields: [&str; 3]) {
    assert_eq!(rt; row.number(), number);
    assert_eq!(rt; row.field(0), fields[0]);
    assert_eq!(rt; row.field(1), fields[1]);
    assert_eq!(rt; row.field(2), fields[2]);
}

// A byte order mark, CRLF and LF, empty lines, blanks inside and outside of quotes, doubled quotes,
// a comma and a line feed inside quotes, records that are too short or go on with empty fields, and
// no last line end.
#[test]
fn fields_are_lent_without_blanks(rt: HostRuntime) -> Result<(), Fail> {
    let text =
        b"\xEF\xBB\xBFstop_id, name\t,\" lat\"\r\n\r\n M ,\"\ta\"\"b,\nc \", 50.5\n\nN\r\nO,,,,\r\n\xC3\x98,P";
    let table = Table::read(rt.alloc(), text)?;
    assert_eq!(rt; table.column("stop_id"), Some(0));
    assert_eq!(rt; table.column("name"), Some(1));
    assert_eq!(rt; table.column("lat"), Some(2));
    assert_eq!(rt; table.column("lon"), None);
    let mut rows = table.rows();
    assert_row(&rt, &rows.next().ok_or("M")?, 2, ["M", "a\"b,\nc", "50.5"]);
    assert_row(&rt, &rows.next().ok_or("N")?, 3, ["N", "", ""]);
    assert_row(&rt, &rows.next().ok_or("O")?, 4, ["O", "", ""]);
    let last = rows.next().ok_or("P")?;
    assert!(rt; rows.next().is_none());
    assert_row(&rt, &last, 5, ["Ø", "P", ""]);
    Ok(())
}

#[test]
fn tables_are_refused_by_the_first_rule(rt: HostRuntime) {
    let cases: [(&[u8], Option<TableRefusal>); 12] = [
        (b"", Some(TableRefusal::NoHeader)),
        (b"\xEF\xBB\xBF\r\n\n", Some(TableRefusal::NoHeader)),
        (b"a,b,a", Some(TableRefusal::DuplicateColumn)),
        (b"a,b, a\n1,2,3,4\n", Some(TableRefusal::DuplicateColumn)),
        (b"a,,\n1,2,3\n", None),
        (b"a\nx,", None),
        (b"a\nx,y", Some(TableRefusal::RowTooLong { row: 2 })),
        (
            b"a,,\n1,2,3\n1,2,3, ,x\n",
            Some(TableRefusal::RowTooLong { row: 3 }),
        ),
        (b"a\n\xFF\n", Some(TableRefusal::NotUtf8 { row: 2 })),
        (b"a,a,\xFF\n", Some(TableRefusal::NotUtf8 { row: 1 })),
        (b"a,b\n\xC3,\x98", Some(TableRefusal::NotUtf8 { row: 2 })),
        (b"a\n1,x\n\xFF\n", Some(TableRefusal::RowTooLong { row: 2 })),
    ];
    for (text, refusal) in cases {
        let answer = Table::read(rt.alloc(), text).err();
        assert_eq!(rt; answer, refusal, "{text:?}");
    }
}

#[test]
fn two_marks_are_taken_off_and_no_third(rt: HostRuntime) -> Result<(), Fail> {
    let two = Table::read(rt.alloc(), b"\xEF\xBB\xBF\xEF\xBB\xBFid\n")?;
    assert_eq!(rt; two.column("id"), Some(0));
    let three = Table::read(rt.alloc(), b"\xEF\xBB\xBF\xEF\xBB\xBF\xEF\xBB\xBFid\n")?;
    assert_eq!(rt; three.column("id"), None);
    assert_eq!(rt; three.column("\u{FEFF}id"), Some(0));
    Ok(())
}
