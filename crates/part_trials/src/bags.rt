// Bags of the best pairs, and what covers what.

use bumpalo::Bump;
use flex_model::{Deadline, NoMemory, Pair, Triple};
use label_bag::{Bag, Offered};
use std::alloc::{Allocator, Global};
use std::test::Fail;

fn pair(deadline: i64, arrival: i64, walk: u32) -> Pair {
    Pair {
        deadline: Deadline::At(deadline),
        arrival,
        walk,
    }
}

// Offers five pairs, and gives what became of each.
fn offer_all<A: Allocator>(bag: &mut Bag<u8, A>) -> Result<[Offered; 5], NoMemory> {
    Ok([
        bag.offer(pair(100, 50, 0), 1)?,
        bag.offer(pair(90, 60, 0), 2)?,
        bag.offer(pair(100, 50, 0), 3)?,
        bag.offer(pair(120, 60, 0), 4)?,
        bag.offer(pair(120, 40, 0), 5)?,
    ])
}

// What became of the five.
const BECAME: [Offered; 5] = [
    Offered::Added,
    Offered::Covered,
    Offered::Covered,
    Offered::Added,
    Offered::Added,
];

#[test]
fn the_best_of_five_offers_is_kept(rt: HostRuntime) -> Result<(), Fail> {
    let mut bag = Bag::<u8, Global>::new(rt.alloc());
    assert!(rt; offer_all(&mut bag)? == BECAME);
    assert!(rt; bag.pairs() == [(pair(120, 40, 0), 5)].as_slice());
    assert!(rt; bag.best_by(39).is_none());
    assert!(rt; bag.best_by(40) == Some(Deadline::At(120)));
    Ok(())
}

#[test]
fn a_bag_in_an_arena_keeps_the_same(rt: HostRuntime) -> Result<(), Fail> {
    let bump = Bump::new(rt.alloc());
    let mut bag = Bag::<u8, &Bump>::new(&bump);
    assert!(rt; offer_all(&mut bag)? == BECAME);
    assert!(rt; bag.pairs() == [(pair(120, 40, 0), 5)].as_slice());
    Ok(())
}

// The second pair covers the first, the fifth is covered by the fourth, and the last covers all.
#[test]
fn less_walking_is_kept(rt: HostRuntime) -> Result<(), Fail> {
    let mut bag = Bag::<u8, Global>::new(rt.alloc());
    assert!(rt; bag.offer(pair(100, 50, 300), 1)? == Offered::Added);
    assert!(rt; bag.offer(pair(100, 50, 200), 2)? == Offered::Added);
    assert!(rt; bag.offer(pair(90, 50, 100), 3)? == Offered::Added);
    assert!(rt; bag.offer(pair(95, 55, 150), 4)? == Offered::Added);
    assert!(rt; bag.offer(pair(95, 60, 150), 5)? == Offered::Covered);
    let kept = [
        (pair(90, 50, 100), 3),
        (pair(100, 50, 200), 2),
        (pair(95, 55, 150), 4),
    ];
    assert!(rt; bag.pairs() == kept.as_slice());
    assert!(rt; bag.best_by(50) == Some(Deadline::At(100)));
    assert!(rt; bag.offer(pair(100, 50, 0), 6)? == Offered::Added);
    assert!(rt; bag.pairs() == [(pair(100, 50, 0), 6)].as_slice());
    Ok(())
}

#[test]
fn a_triple_covers_what_is_no_better(rt: HostRuntime) {
    let best = Triple {
        deadline: Deadline::Never,
        arrival: 1000,
        transfers: 0,
        walk: 0,
    };
    let worse = Triple {
        deadline: Deadline::At(500),
        arrival: 1000,
        transfers: 1,
        walk: 0,
    };
    let on_foot = Triple { walk: 60, ..best };
    assert!(rt; flex_model::covers(&best, &worse));
    assert!(rt; flex_model::covers(&best, &best));
    assert!(rt; !flex_model::covers(&worse, &best));
    assert!(rt; flex_model::covers(&best, &on_foot));
    assert!(rt; !flex_model::covers(&on_foot, &best));
    assert!(rt; !flex_model::covers(&on_foot, &worse));
    assert!(rt; Deadline::At(i64::MAX) < Deadline::Never);
}

#[test]
fn a_pair_covers_what_is_no_better(rt: HostRuntime) {
    let best = pair(100, 50, 60);
    assert!(rt; label_bag::covers(&best, &best));
    assert!(rt; label_bag::covers(&best, &pair(99, 51, 61)));
    for better in [pair(101, 50, 60), pair(100, 49, 60), pair(100, 50, 59)] {
        assert!(rt; !label_bag::covers(&best, &better));
    }
}
