// Texts by their places.
ghost use Rattle.std.specs.Prelude.{◌≡◌, ◌∷◌, ◌++◌, [], position, IfErr, IfOk, None};
ghost use Rattle.std.specs.Str.{bytes_eq};

use ct_mono::NoMemory;
use indexmap::IndexSet;
use std::alloc::Global;
use std::marker::Model;

/// Different texts, in the order in which they were added.
#[derive(Drop)]
pub struct NameTable {
    alloc: Global,
    texts: IndexSet<Vec<u8>>,
}

impl Model for NameTable {
    ghost use Rattle.std.specs.Prelude.{ℕ, List, map};

    ghost Value = { List (List ℕ) };

    ghost view = { λ t. map (λ text. text.items) t.texts.keys };
}

impl NameTable {
    pub fn new(alloc: Global) -> NameTable
        ensures { result ≡ [] }
    {
        NameTable {
            alloc,
            texts: IndexSet::new(alloc),
        }
    }

    /// The place of a text.
    pub fn place_of(&self, text: &[u8]) -> Option<usize>
        ensures { result ≡ position (bytes_eq text.now) self.now }
    {
        self.texts.get_index_of(text)
    }

    /// One more text.
    pub fn add(&mut self, text: &[u8]) -> Result<(), NoMemory>
        requires { position (bytes_eq text.now) self.old ≡ None }
        ensures added { IfOk result (λ _. self.new ≡ self.old ++ text.now ∷ []) }
        ensures unchanged { IfErr result (λ _. self.new ≡ self.old) }
    {
        let copy = Vec::from_slice(self.alloc, text)?;
        self.texts.insert(copy)?;
        Ok(())
    }
}
