//! Words that share their units.

ghost use Rattle.std.specs.Prelude.{◌≡◌, ◌<◌, IfOk};

use js_core::{OutOfMemory, Units};
use std::alloc::Global;

/// How many words are kept.
const PLACES: usize = 1024;

/// Words that were read, each at a place that its units give. A word that comes again while it is kept takes no memory.
#[derive(Drop)]
pub struct Words {
    alloc: Global,
    kept: Vec<Option<Units>>,
}

impl Words {
    /// No words.
    pub fn new(alloc: Global) -> Result<Words, OutOfMemory> {
        let mut kept = Vec::new(alloc);
        for _place in 0..PLACES {
            kept.push(None)?;
        }
        Ok(Words { alloc, kept })
    }

    /// The text of the word.
    pub fn text_of(&mut self, word: &[u16]) -> Result<Units, OutOfMemory>
        ensures { IfOk result (λ text. text ≡ word.now) }
    {
        let place = place_of(word);
        if let Some(Some(text)) = self.kept.get(place) {
            if text.as_slice() == word {
                return text.clone();
            }
        }
        let text = Units::of(self.alloc, word)?;
        let copy = text.clone()?;
        if let Some(kept) = self.kept.get_mut(place) {
            *kept = Some(copy);
        }
        Ok(text)
    }
}

/// The place of a word.
fn place_of(word: &[u16]) -> usize
    ensures { result < 1024 }
{
    let mut mixed: u32 = 0;
    for unit in word {
        mixed = mixed.wrapping_mul(31).wrapping_add(u32::from(*unit));
    }
    mixed as usize % PLACES
}
