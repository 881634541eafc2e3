//! Tree rows written one after the other: new ones, and old ones that are kept.
#![tactic(auto)]

ghost use Rattle.std.specs.Prelude.{[], ◌∷◌, ◌*◌, ◌<◌, ◌≤◌, length};
ghost use Rattle.rules.specs.Layout.{row_size};
ghost use Rattle.rules.specs.Decode.{read_row, read_many};
ghost use Rattle.layout.specs.Bodies.{Width};
ghost use Rattle.layout.specs.RowBytes.{reindexed_row, valued_row};
ghost use Rattle.row_writer.specs.Written.{Written, Room, OldRow, OldRows, new_row};

/// Where the next row goes, how many rows may still be written, and the serial that the next new row gets. Each writer
/// moves it on. Writing into a buffer of one byte with `left` one past the ceiling counts the rows, and stops past it.
#[derive(Clone, Copy)]
pub struct Cursor {
    pub at: usize,
    pub left: usize,
    pub serial: usize,
}

/// A new row, which gets the next serial.
// `sort` is the byte, and no RowSort: the clause of `put_new` speaks of every byte.
pub fn put_new(
    w: usize,
    sort: u8,
    depth: usize,
    index: usize,
    value: &[u8],
    c: &mut Cursor,
    out: &mut [u8],
)
    requires { Width w × Room w c.old × (depth < 256) × (index < 65536) × (length value.now ≤ w) }
    ensures { Written w (new_row sort depth index value.now ∷ []) c.old out.old c.new out.new }
{
    if c.left == 0 {
        return;
    }
    c.at = layout_row_writer::put_row(w, sort, depth, index, c.serial, value, out, c.at);
    c.left -= 1;
    c.serial += 1;
}

/// An old row with another index.
pub fn put_kept(w: usize, row: &[u8], index: usize, c: &mut Cursor, out: &mut [u8])
    requires { Width w × Room w c.old × OldRow w row.now × (index < 65536) }
    ensures { Written w (reindexed_row index row.now ∷ []) c.old out.old c.new out.new }
{
    if c.left == 0 {
        return;
    }
    c.at = layout_row_writer::put_row_moved(w, row, index, out, c.at);
    c.left -= 1;
}

/// An old row with another index and another value.
// It stays beside `put_kept`: one function for both would take the value as an Option, to tell them apart again.
pub fn put_valued(w: usize, row: &[u8], index: usize, value: &[u8], c: &mut Cursor, out: &mut [u8])
    requires { Width w × Room w c.old × OldRow w row.now × (index < 65536) × (length value.now ≤ w) }
    ensures { Written w (valued_row index value.now row.now ∷ []) c.old out.old c.new out.new }
{
    if c.left == 0 {
        return;
    }
    c.at = layout_row_writer::put_row_valued(w, row, index, value, out, c.at);
    c.left -= 1;
}

/// The first `count` of some old rows as they are, no more than may be written.
pub fn put_block(w: usize, rows: &[u8], count: usize, c: &mut Cursor, out: &mut [u8])
    requires { Width w × Room w c.old × OldRows w count rows.now × (row_size w * count ≤ length rows.now) × (count ≤ c.old.left) }
    ensures { Written w (read_many read_row (row_size w) count rows.now) c.old out.old c.new out.new }
{
    let size = layout::row_size(w);
    let long = size * count;
    let block = &rows[..long];
    c.at = codec::put(block, out, c.at);
    c.left -= count;
}
