//! ASCII characters as 16-bit units.

ghost use Rattle.std.specs.Prelude.{◌≡◌, ◌++◌, take, length, IfOk, OnOk, OnErr, ◌∷◌, []};

use crate::memory::OutOfMemory;
use crate::units::Units;
use std::alloc::Global;

/// Appends ASCII characters, each as its unit. After an error some of them may be appended.
pub fn push_ascii(text: &[u8], out: &mut Vec<u16>) -> Result<(), OutOfMemory>
    ensures ok { OnOk result (out.new.items ≡ out.old.items ++ text.now) }
    ensures err { OnErr result (take (length out.old.items) out.new.items ≡ out.old.items) }
{
    for code in text {
        out.push(u16::from(*code))?;
    }
    Ok(())
}

/// The text of ASCII characters. Of a literal the clause computes: the text of `b"length"` is `codes "length"`.
pub fn ascii_text(alloc: Global, text: &[u8]) -> Result<Units, OutOfMemory>
    ensures { IfOk result (λ units. units ≡ text.now) }
{
    let mut units = Vec::new(alloc);
    push_ascii(text, &mut units)?;
    Units::of(alloc, units.as_slice())
}
