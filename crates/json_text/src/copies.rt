// The texts that can't be lent from the scanned text, since an escape stands in them.

ghost use Rattle.std.specs.Prelude.{◌≡◌, ◌<◌, ◌∷◌, [], ◌++◌, get_or, length, string_bytes, OnOk};
ghost use Rattle.std.specs.Option.{option_copied, option_map};

use flex_model::NoMemory;
use std::alloc::Global;
use std::marker::Model;

/// For each node a text or none, in the order of the nodes.
#[derive(Drop)]
pub struct Copies {
    texts: Vec<Option<String>>,
}

impl Model for Copies {
    ghost use Rattle.std.specs.Prelude.{List, ℕ, Option, map, string_bytes};
    ghost use Rattle.std.specs.Option.{option_map};

    ghost Value = { List (Option (List ℕ)) };

    ghost view = { λ copies. map (option_map string_bytes) copies.texts.items };
}

impl Copies {
    pub fn new(alloc: Global) -> Copies
        ensures { result ≡ [] }
    {
        Copies {
            texts: Vec::new(alloc),
        }
    }

    pub fn push(&mut self, text: Option<String>) -> Result<(), NoMemory>
        ensures { OnOk result (self.new ≡ self.old ++ option_map string_bytes text ∷ []) }
    {
        self.texts.push(text)?;
        Ok(())
    }

    pub fn get(&self, node: usize) -> Option<&str>
        requires { node < length self.now }
        ensures { option_copied result ≡ get_or self.now node None }
    {
        match &self.texts[node] {
            None => None,
            Some(text) => Some(text.as_str()),
        }
    }
}
