// The items of an array.

ghost use Rattle.std.specs.Prelude.{◌≡◌, ◌-◌, ◌≤◌, length};
ghost use Rattle.json_text.specs.Walk.{Rises, walk};

use crate::row::Row;
use std::marker::Model;

/// The numbers of an array's items, in order.
#[derive(Drop)]
pub struct JsonItems<'a> {
    rows: &'a [Row],
    next: u32,
    end: u32,
}

impl<'a> Model for JsonItems<'a> {
    ghost use Rattle.std.specs.Prelude.{List, ℕ, ◌-◌, ◌≤◌, length};
    ghost use Rattle.json_text.specs.Walk.{Rises, walk};

    ghost Value = { List ℕ };

    ghost view = { λ items. walk items.rows.now (items.end - items.next) items.next items.end };

    ghost invariant = { λ items. (items.end ≤ length items.rows.now) × Rises items.rows.now };
}

impl<'a> JsonItems<'a> {
    pub(crate) fn new(rows: &'a [Row], next: u32, end: u32) -> JsonItems<'a>
        requires end { end ≤ length rows.now }
        requires rises { Rises rows.now }
        ensures { result ≡ walk rows.now (end - next) next end }
    {
        JsonItems { rows, next, end }
    }
}

impl<'a> Iterator for JsonItems<'a> {
    type Item = u32;

    ghost use Rattle.std.specs.Iterator.{YieldsFirst, item_count};

    ghost remaining = { item_count (λ items. items) };

    ghost next_gives = { YieldsFirst (λ items. items) };

    fn next(&mut self) -> Option<u32> {
        if self.next >= self.end {
            return None;
        }
        let node = self.next;
        self.next = self.rows[node as usize].next;
        Some(node)
    }
}
