// Settings of the layout.
ghost use Rattle.std.specs.Prelude.{◌≡◌};

/// How long lines may be, and how far an inner line stands behind an outer one, both in characters.
#[derive(Clone, Copy, PartialEq, Eq, Debug)]
pub struct Layout {
    /// A line is longer than this only if nothing in it can go to a line of its own.
    pub width: usize,
    pub indent: usize,
}

impl Layout {
    /// The layout that Cedar's users know: 80 characters, and 2 for an inner line.
    pub fn of_cedar() -> Layout
        ensures { result ≡ record { width = 80; indent = 2 } }
    {
        Layout {
            width: 80,
            indent: 2,
        }
    }
}
