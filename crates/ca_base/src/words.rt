//! The words of a command line.

ghost use Rattle.std.specs.Prelude.{◌≡◌, ◌<◌, ◌↔◌, [], ◌∷◌, ◌++◌, length, slice_get, IsSome, OnOk, OnErr};
ghost use Rattle.std.specs.Option.{option_map};

use crate::NoMemory;
use std::alloc::Global;
use std::marker::Model;

/// A list of words, in the order in which they came.
#[derive(Drop)]
pub struct Words {
    alloc: Global,
    words: Vec<String>,
}

impl Model for Words {
    ghost use Rattle.std.specs.Prelude.{List, ℕ, map};
    ghost use Rattle.std.specs.String.{string_bytes};

    ghost Value = { List (List ℕ) };

    ghost view = { λ w. map string_bytes w.words.items };
}

impl Words {
    /// No words. It takes no memory.
    pub fn new(alloc: Global) -> Words
        ensures { result ≡ [] }
    {
        Words {
            alloc,
            words: Vec::new(alloc),
        }
    }

    /// Adds one word at the end. `NoMemory` changes nothing.
    pub fn push(&mut self, word: &str) -> Result<(), NoMemory>
        ensures ok { OnOk result (self.new ≡ self.old ++ word.now ∷ []) }
        ensures err { OnErr result (self.new ≡ self.old) }
    {
        let word = String::from_str(self.alloc, word)?;
        self.words.push(word)?;
        Ok(())
    }

    /// How many words there are.
    pub fn len(&self) -> usize
        ensures { result ≡ length self.now }
    {
        self.words.len()
    }

    /// The word at this index, from 0: `None` exactly if the index isn't below the length.
    pub fn get(&self, i: usize) -> Option<&str>
        ensures there { IsSome result ↔ (i < length self.now) }
        ensures word { option_map (λ w. w.now) result ≡ slice_get self.now i }
    {
        if i < self.words.len() {
            Some(self.words[i].as_str())
        } else {
            None
        }
    }
}
