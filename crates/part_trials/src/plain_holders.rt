// Lists, texts and times.

use flex_model::{Listed, Place, Span, Text, Times, direct, walk};
use std::test::Fail;

#[test]
fn lists_keep_their_items(rt: HostRuntime) -> Result<(), Fail> {
    let mut list = Listed::<u32>::new(rt.alloc());
    list.push(3)?;
    list.push(5)?;
    assert!(rt; list.as_slice() == [3, 5].as_slice());
    assert!(rt; !list.is_empty());
    assert_eq!(rt; list[1], 5);
    let mut sum = 0_u64;
    for item in &list {
        sum = sum.saturating_add(u64::from(*item));
    }
    assert_eq!(rt; sum, 8);
    assert!(rt; list.iter().any(|item| *item == 5));
    let again = Listed::from_vec(list.into_vec());
    assert_eq!(rt; again.as_slice().len(), 2);
    Ok(())
}

#[test]
fn texts_keep_their_pieces(rt: HostRuntime) -> Result<(), Fail> {
    let mut text = Text::new(rt.alloc());
    text.append("Høj")?;
    text.append(" 5%")?;
    assert!(rt; text.as_str() == "Høj 5%");
    text.cut(0);
    text.append("ride")?;
    assert!(rt; text.as_str() == "ride");
    Ok(())
}

// The times are those of a folder with one direct and one walking time.
#[test]
fn times_tell_the_seconds_of_a_pair(rt: HostRuntime) -> Result<(), Fail> {
    let mut times = Times {
        points: Listed::new(rt.alloc()),
        direct: Listed::new(rt.alloc()),
        walks: Listed::new(rt.alloc()),
    };
    let (from, to) = (Place::Point(0), Place::Stop(0));
    times.direct.push(Span {
        from,
        to,
        seconds: 600,
    })?;
    times.walks.push(Span {
        from: to,
        to: from,
        seconds: 240,
    })?;
    assert_eq!(rt; direct(&times, from, to), Some(600));
    assert_eq!(rt; direct(&times, to, from), None);
    assert_eq!(rt; walk(&times, to, from), Some(240));
    assert_eq!(rt; walk(&times, from, to), None);
    Ok(())
}
