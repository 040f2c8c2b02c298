//! Texts of 16-bit units.

ghost use Rattle.std.specs.Prelude.{◌≡◌, ◌<◌, ◌^◌, ◌++◌, length, IfOk, OnOk, OnErr, bytes_eq};
ghost use Rattle.std.specs.Cmp.Rules.{comparing, hashing};
ghost use Rattle.std.specs.Hash as fed;
ghost use Rattle.std.specs.List.{list_any};
ghost use Rattle.std.proofs.Common.{rules};
ghost use Rattle.js_core.specs.LineText.{line_text};
ghost use Rattle.js_core.specs.Text.{AllUnits, utf16_of};

use crate::line_text::{push_line_text, truncate_on_error};
use crate::memory::OutOfMemory;
use std::alloc::Global;
use std::hash::{Hash, Hasher};
use std::marker::Model;
use std::rc::RcSlice;

/// A text (ECMA-262 5.1 section 8.4): a shared list of 16-bit units, which contracts see as the list of
/// its units, each below 65,536.
pub struct Units {
    units: RcSlice<u16>,
}

// A function of its own, so that the crates above cite it and do not prove it again.
impl Drop for Units {
    fn drop(self) {
        let Units { units: _units } = self;
    }
}

impl Model for Units {
    ghost use Rattle.std.specs.Prelude.{List, ℕ};
    ghost use Rattle.std.specs.Rc.{rc_slice_items};

    ghost Value = { List ℕ };

    ghost view = { λ u. rc_slice_items u.units };

    ghost use Rattle.js_core.specs.Text.{AllUnits};

    ghost invariant = { λ u. AllUnits (rc_slice_items u.units) };
}

impl PartialEq for Units {
    ghost eq = { bytes_eq };

    ghost laws = { Prim.search (comparing, rules) };

    fn eq(&self, other: &Units) -> bool {
        self.as_slice() == other.as_slice()
    }
}

impl Eq for Units {
    ghost laws = { Prim.search (comparing, rules) };
}

impl Hash for Units {
    ghost hash_input = { fed.slice fed.u16 };

    ghost respects_eq = { Prim.search (hashing, rules) };

    fn hash<H: Hasher>(&self, state: &mut H) {
        self.as_slice().hash(state);
    }
}

impl Units {
    /// The text of these units.
    pub fn of(alloc: Global, units: &[u16]) -> Result<Units, OutOfMemory>
        ensures { IfOk result (λ text. text ≡ units.now) }
    {
        Ok(Units {
            units: RcSlice::from_slice(alloc, units)?,
        })
    }

    /// The text with these characters, each as its one or two units of UTF-16.
    pub fn from_utf8(alloc: Global, text: &str) -> Result<Units, OutOfMemory>
        ensures { IfOk result (λ units. units ≡ utf16_of text.now) }
    {
        let mut units = Vec::new(alloc);
        for character in text.chars() {
            let mut pair = [0; 2];
            units.extend_from_slice(character.encode_utf16(&mut pair))?;
        }
        Units::of(alloc, units.as_slice())
    }

    /// The same text, which shares the units.
    pub fn clone(&self) -> Result<Units, OutOfMemory>
        ensures { IfOk result (λ text. text ≡ self.now) }
    {
        Ok(Units {
            units: self.units.clone()?,
        })
    }

    /// The units, without memory.
    pub fn as_slice(&self) -> &[u16]
        ensures value { result.now ≡ self.now }
        ensures units { AllUnits self.now }
        ensures short { length self.now < 2 ^ 64 }
    {
        let units = self.units.as_slice();
        let _length = units.len();
        units
    }

    /// Appends the text as it stands in a line: a backslash is doubled, the units 0000 to 001F and 007F to 009F and the
    /// surrogates without a partner become `\u` and four upper-case hexadecimal digits, and all else is UTF-8. After an
    /// error nothing is appended.
    pub fn to_line_text(&self, out: &mut Vec<u8>) -> Result<(), OutOfMemory>
        ensures ok { OnOk result (out.new.items ≡ out.old.items ++ line_text self.now) }
        ensures err { OnErr result (out.new.items ≡ out.old.items) }
    {
        let length = out.len();
        let pushed = push_line_text(self.as_slice(), out);
        truncate_on_error(out, length, pushed)
    }

    /// Whether the units are these bytes, each as one unit, as an ASCII text has them.
    pub fn spells(&self, text: &[u8]) -> bool
        ensures { result ≡ bytes_eq self.now text.now }
    {
        let units = self.as_slice();
        if units.len() != text.len() {
            return false;
        }
        for (i, byte) in text.iter().enumerate() {
            if units[i] != u16::from(*byte) {
                return false;
            }
        }
        true
    }

    /// Whether the units are the bytes of one of these texts, each byte as one unit.
    pub fn is_among(&self, texts: &[&[u8]]) -> bool
        ensures { result ≡ list_any (λ text. bytes_eq self.now text.now) texts.now }
    {
        texts.iter().any(|text| self.spells(text))
    }
}
