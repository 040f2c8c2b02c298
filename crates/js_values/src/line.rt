//! The lines that a page puts out.

ghost use Rattle.std.specs.Prelude.{◌≡◌, [], ◌++◌, length, OnOk, OnErr, take, if◌then◌else◌, codes};
ghost use Rattle.js_values.specs.Line.{kind_words, has_text, line_of};
ghost use Rattle.js_core.specs.LineText.{line_text};

use js_core::{OutOfMemory, Units, push_line_text, truncate_on_error};

/// What a line tells, which its first words say.
#[derive(Clone, Copy, PartialEq, Eq)]
pub enum LineKind {
    /// `console.log` was called.
    Log,
    /// `alert` was called.
    Alert,
    /// An exception was caught by nothing.
    Uncaught,
    /// The text of the document was asked for.
    Dom,
    /// A host event or script ran out of steps. This line has no text.
    Stopped,
    /// A host event names an element that is not there. This line has no text.
    NoElement,
}

/// A line that a page puts out.
#[derive(PartialEq, Eq, Drop)]
pub struct Line {
    /// What the line tells.
    pub kind: LineKind,
    /// Its text, which is not put out where the kind has none.
    pub text: Units,
}

impl LineKind {
    /// Whether a line of this kind has a text.
    pub fn has_text(self) -> bool
        ensures { result ≡ has_text self }
    {
        !matches!(self, LineKind::Stopped | LineKind::NoElement)
    }

    fn words(self) -> &'static [u8]
        ensures { result.now ≡ kind_words self }
    {
        match self {
            LineKind::Log => b"log",
            LineKind::Alert => b"alert",
            LineKind::Uncaught => b"uncaught",
            LineKind::Dom => b"dom",
            LineKind::Stopped => b"stopped",
            LineKind::NoElement => b"no element",
        }
    }
}

impl Line {
    /// Appends the line as it is put out: the words of its kind (`log`, `alert`, `uncaught`, `dom`, `stopped` or
    /// `no element`), a space and the text where the kind has one, and LF. After an error nothing is appended.
    pub fn write(&self, out: &mut Vec<u8>) -> Result<(), OutOfMemory>
        ensures ok { OnOk result (out.new.items ≡ out.old.items ++ line_of self.now) }
        ensures err { OnErr result (out.new.items ≡ out.old.items) }
    {
        let length = out.len();
        let pushed = self.push(out);
        truncate_on_error(out, length, pushed)
    }

    fn push(&self, out: &mut Vec<u8>) -> Result<(), OutOfMemory>
        ensures ok { OnOk result (out.new.items ≡ out.old.items ++ line_of self.now) }
        ensures err { OnErr result (take (length out.old.items) out.new.items ≡ out.old.items) }
    {
        out.extend_from_slice(self.kind.words())?;
        self.push_text(out)?;
        out.push(b'\n')?;
        Ok(())
    }

    fn push_text(&self, out: &mut Vec<u8>) -> Result<(), OutOfMemory>
        ensures ok { OnOk result (out.new.items ≡ out.old.items
            ++ (if has_text self.now.kind then codes " " ++ line_text self.now.text else [])) }
        ensures err { OnErr result (take (length out.old.items) out.new.items ≡ out.old.items) }
    {
        if !self.kind.has_text() {
            return Ok(());
        }
        out.push(b' ')?;
        push_line_text(self.text.as_slice(), out)
    }
}
