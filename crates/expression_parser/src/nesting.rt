//! How deep parts may nest.

ghost use Rattle.std.specs.Prelude.{◌≡◌, ◌<◌, ◌≤◌};
ghost use Rattle.expression_parser.specs.Nestings.{inside_of, in_groups};

/// How deep parts may nest inside a phrase. A part is lower than what it stands in, but for the inside of a group and the
/// block that is the body of another statement, and groups with which expressions begin are opened by a loop. So what nests
/// deeper than there is room is too high, and reading takes a bounded part of the machine's stack.
#[derive(Clone, Copy)]
pub struct Nesting {
    /// Parts nest less deep, but for groups with which expressions begin.
    pub room: usize,
    /// All parts nest less deep.
    pub all: usize,
}

impl Nesting {
    /// How deep parts may nest one deeper.
    pub fn inside(self) -> Nesting
        requires room { 0 < self.room }
        requires all { 0 < self.all }
        ensures { result ≡ inside_of self }
    {
        Nesting {
            room: self.room - 1,
            all: self.all - 1,
        }
    }

    /// How deep parts may nest in so many groups with which an expression begins.
    pub fn in_groups(self, opened: usize) -> Nesting
        requires { opened ≤ self.all }
        ensures { result ≡ in_groups self opened }
    {
        Nesting {
            room: self.room,
            all: self.all - opened,
        }
    }
}
