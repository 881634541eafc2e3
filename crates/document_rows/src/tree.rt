//! The rows right below a row.
ghost use Rattle.std.specs.Prelude.{◌≡◌, ◌<◌};
ghost use Rattle.rules.specs.Decode.{read_row};
ghost use Rattle.document_rows.specs.Finding.{NextChild};

use layout::rows::Rows;

/// The number of the first row from `start` on that has a depth and a sort, before any that is less deep.
// The fields of `Children`, each by itself: what the loop reads stays as it is. The sort is a byte, as the clause speaks
// of every byte.
pub fn next_child(rows: Rows<'_>, start: usize, depth: usize, sort: u8) -> Option<usize>
    ensures { NextChild rows.entry.width sort depth rows.entry.bytes.now rows.entry.count start result }
{
    for i in start..rows.count {
        let row = rows.row(i);
        let deep = layout::row_depth(row) as usize;
        if deep < depth {
            return None;
        }
        if (deep == depth) & (layout::row_sort(row) == sort) {
            return Some(i);
        }
    }
    None
}

/// The rows of a depth and a sort from number `at` on, before any that is less deep.
#[derive(Drop)]
pub struct Children<'a> {
    pub rows: Rows<'a>,
    pub at: usize,
    pub depth: usize,
    pub sort: u8,
}

impl<'a> Children<'a> {
    ghost use Rattle.document_rows.specs.Finding.{children_below};
    ghost use Rattle.document_rows.specs.Coming.{coming};

    /// The rows of a sort right below row i.
    pub fn below(rows: Rows<'a>, i: usize, sort: u8) -> Children<'a>
        requires { i < 4294967296 }
        ensures { coming result ≡ children_below rows.entry.width rows.entry.bytes.now rows.entry.count sort i }
    {
        let depth = layout::row_depth(rows.row(i)) as usize;
        Children {
            rows,
            at: i + 1,
            depth: depth + 1,
            sort,
        }
    }
}

impl<'a> Iterator for Children<'a> {
    type Item = &'a [u8];

    ghost use Rattle.std.specs.Iterator.{YieldsFirstBy, item_count};
    ghost use Rattle.document_rows.specs.Coming.{coming};

    ghost next_gives = { YieldsFirstBy (λ row. (read_row row.now).row) coming };

    ghost remaining = { item_count coming };

    fn next(&mut self) -> Option<&'a [u8]> {
        let i = next_child(self.rows, self.at, self.depth, self.sort)?;
        self.at = i + 1;
        Some(self.rows.row(i))
    }
}
