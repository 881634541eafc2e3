//! The rows of a tree body as they are lent.
ghost use Rattle.std.specs.Prelude.{◌≡◌, ◌<◌};
ghost use Rattle.rules.specs.Layout.{row_size};
ghost use Rattle.layout.specs.Bodies.{Width, record_at};

/// The rows of a tree body: the width of a value, the bytes, and how many rows they are.
#[derive(Clone, Copy)]
pub struct Rows<'a> {
    pub width: usize,
    pub bytes: &'a [u8],
    pub count: usize,
    pub ghost narrow: { Width width },
    pub ghost few: { count < 4294967296 },
}

impl<'a> Rows<'a> {
    /// Row i.
    pub fn row(self, i: usize) -> &'a [u8]
        requires { i < 4294967296 }
        ensures { result.now ≡ record_at (row_size self.entry.width) i self.entry.bytes.now }
    {
        crate::row_at(self.width, self.bytes, i)
    }
}
