// JSON texts: the places of refusals, the texts of strings, and that memory suffices.

use json_text::{JsonKind, JsonText, ScanRefusal};
use std::alloc::{AllocError, Global};
use std::test::Fail;

// A line each: the place, a blank and the text.
const FAULTS: &str = r#"40 {"type":"FeatureCollection","features":[}
0 
1  
7 {"a":1,}
1 01
2 1e
3 nul
3 [1 2]
1 -
2 1.
0 .5
3 1e+
0 +1
2 -01
3 tru 
3 [1,]
1 [,1]
5 {"a" 1}
1 {a:1}
2 "a
2 "\x"
5 "\u12g4"
2 1 1
2 []]
1 nan"#;

// A line each: a string, a blank and the codes of its text's bytes.
const STRINGS: &str = r#""" 
"aø" 97 195 184
"\"\\\/\b\f\n\r\t" 34 92 47 8 12 10 13 9
"\u0041\u00e9\u20AC" 65 195 169 226 130 172
"\ud83d\ude00" 240 159 152 128
"\ud800" 239 191 189
"\udc00\ud800x" 239 191 189 239 191 189 120
"\ud800\ud83d\ude00\n" 239 191 189 240 159 152 128 10
"\ud800\u0041" 239 191 189 65
"ø\u0000ø" 195 184 0 195 184"#;

// Why a text is refused.
fn refusal_of(alloc: Global, text: &str) -> Option<ScanRefusal> {
    if text.len() >= 1000 {
        return None;
    }
    JsonText::scan(alloc, text).err()
}

fn copied(alloc: Global, text: &str) -> Result<Option<String>, AllocError> {
    Ok(Some(String::from_str(alloc, text)?))
}

// The text of a text that is a string.
fn word(alloc: Global, text: &str) -> Result<Option<String>, AllocError> {
    if text.len() >= 1000 {
        return Ok(None);
    }
    let Ok(json) = JsonText::scan(alloc, text) else {
        return Ok(None);
    };
    let root = json.root();
    if json.kind(root) != JsonKind::String {
        return Ok(None);
    }
    copied(alloc, json.text_of(root))
}

// The member of the name, where it is a number.
fn number(alloc: Global, text: &str, name: &str) -> Result<Option<String>, AllocError> {
    if text.len() >= 1000 {
        return Ok(None);
    }
    let Ok(json) = JsonText::scan(alloc, text) else {
        return Ok(None);
    };
    let root = json.root();
    if json.kind(root) != JsonKind::Object {
        return Ok(None);
    }
    let Some(node) = json.member(root, name) else {
        return Ok(None);
    };
    if json.kind(node) != JsonKind::Number {
        return Ok(None);
    }
    copied(alloc, json.number_of(node))
}

// The numbers of a text's items, and then the place of the text's value.
fn items(alloc: Global, text: &str) -> Result<Vec<u64>, AllocError> {
    let mut numbers = Vec::new(alloc);
    if text.len() >= 1000 {
        return Ok(numbers);
    }
    let Ok(json) = JsonText::scan(alloc, text) else {
        return Ok(numbers);
    };
    let root = json.root();
    if json.kind(root) != JsonKind::Array {
        return Ok(numbers);
    }
    for node in json.items(root) {
        numbers.push(u64::from(node))?;
    }
    numbers.push(json.place(root))?;
    Ok(numbers)
}

#[test]
fn texts_are_refused_at_a_place(rt: HostRuntime) -> Result<(), Fail> {
    for line in FAULTS.lines() {
        let (at, text) = line.split_once(' ').ok_or("a place and a text")?;
        let at: u64 = at.parse()?;
        let refused = Some(ScanRefusal::Syntax { at });
        assert_eq!(rt; refusal_of(rt.alloc(), text), refused, "{line}");
    }
    for (text, refusal) in [
        ("\"\t\"", Some(ScanRefusal::Syntax { at: 1 })),
        ("\u{b}1", Some(ScanRefusal::Syntax { at: 0 })),
        ("\u{a0}1", Some(ScanRefusal::Syntax { at: 0 })),
        (" \t\n\r1 \t\n\r", None),
    ] {
        assert_eq!(rt; refusal_of(rt.alloc(), text), refusal, "{text:?}");
    }
    Ok(())
}

#[test]
fn sixty_four_arrays_may_be_open(rt: HostRuntime) -> Result<(), Fail> {
    let mut text = "[".repeat(rt.alloc(), 64)?;
    let mut closed = text.clone()?;
    closed.push_str("]".repeat(rt.alloc(), 64)?.as_str())?;
    assert!(rt; items(rt.alloc(), closed.as_str())?.as_slice() == [1, 0].as_slice());
    text.push_str("{x")?;
    let refused = Some(ScanRefusal::Depth { at: 64 });
    assert_eq!(rt; refusal_of(rt.alloc(), text.as_str()), refused);
    Ok(())
}

#[test]
fn escapes_of_strings_are_read(rt: HostRuntime) -> Result<(), Fail> {
    for line in STRINGS.lines() {
        let (text, codes) = line.split_once(' ').ok_or("a string and its codes")?;
        let read = word(rt.alloc(), text)?.ok_or("no string")?;
        let mut expected = Vec::new(rt.alloc());
        for code in codes.split_whitespace() {
            let byte: u8 = code.parse()?;
            expected.push(byte)?;
        }
        assert!(rt; read.as_bytes() == expected.as_slice(), "{line}");
    }
    Ok(())
}

#[test]
fn members_are_found_by_name(rt: HostRuntime) -> Result<(), Fail> {
    let twice = r#"{"a":1,"a":2}"#;
    let first = number(rt.alloc(), twice, "a")?.ok_or("no member")?;
    assert!(rt; first.as_str() == "1");
    assert!(rt; number(rt.alloc(), twice, "b")?.is_none());
    let escaped = r#"{"b":[1,{"a":3}],"\u0061" : -0.5E+07 }"#;
    let read = number(rt.alloc(), escaped, "a")?.ok_or("no member")?;
    assert!(rt; read.as_str() == "-0.5E+07");
    Ok(())
}

#[test]
fn items_are_gone_over(rt: HostRuntime) -> Result<(), Fail> {
    let numbers = items(rt.alloc(), r#"  [1,[2,[]],{"a":[3]},"x"]"#)?;
    assert!(rt; numbers.as_slice() == [1, 2, 5, 8, 2].as_slice());
    Ok(())
}
