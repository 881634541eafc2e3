//! The text of the documents, a line each.
#![tactic(auto)]

ghost use Rattle.std.specs.Prelude.{◌≡◌, true, suc, ◌+◌, ◌<◌, ◌≤◌, length};
ghost use Rattle.codec.specs.Laid.{Laid};
ghost use Rattle.rules.specs.Preorder.{build};
ghost use Rattle.rules.specs.Decode.{row_name, row_sort_of, read_row};
ghost use Rattle.printing_parts.specs.Parts.{Named, names_of, attribute_names_of};
ghost use Rattle.printing_parts.specs.Walking.{TextRoom, Passed, Stepped};
ghost use Rattle.document_printing.specs.Documents.{Enclosed, end_text, stays, attribute_text, element_text, row_text, rows_text, document_text, documents_text};
ghost use Rattle.document_printing.specs.Coming.{rows_coming, row_there};

use layout::rows::Rows;
use printing_parts::Walked;
use rules::RowSort;

// Ends a start tag that is still open. Whether one is is told by the row before, not chosen by a caller.
fn put_end(opened: bool, out: &mut [u8], at: usize) -> usize
    requires { at < 9223372036854775808 }
    ensures { Laid (end_text opened) out.old at result out.new }
{
    if opened {
        return codec::put_u8(out, at, b'>');
    }
    at
}

// The value of a row, which is short: at most 300 bytes, as `layout::row_value` does not say.
fn short_value(row: &[u8]) -> &[u8]
    requires { length row.now ≤ 300 }
    ensures { Named (read_row row.now).row.value result.now }
{
    layout::row_value(row)
}

// The name of a row.
fn row_name_of<'a>(store: &'a [u8], row: &[u8]) -> &'a [u8]
    ensures { let r = (read_row row.now).row in
        Named (row_name (names_of store.now) (attribute_names_of store.now) (row_sort_of r.sort) r.index) result.now }
{
    let sort = layout::row_sort_of(row);
    let index = layout::row_index(row) as usize;
    if sort == Some(RowSort::Element) {
        return printing_parts::name_of(store, index);
    }
    if sort == Some(RowSort::Attribute) {
        return printing_parts::attribute_name_of(store, index);
    }
    &store[..0]
}

// Whether a start tag that is open stays so behind a row.
fn stays_open(row: &[u8], opened: bool) -> bool
    ensures { result ≡ stays (row_sort_of (read_row row.now).row.sort) opened }
{
    opened & (layout::row_sort_of(row) == Some(RowSort::Attribute))
}

// Writes an attribute row.
fn put_attribute(name: &[u8], value: &[u8], out: &mut [u8], at: usize) -> usize
    requires { (at < 4611686018427387904) × (length name.now ≤ 300) × (length value.now ≤ 300) }
    ensures { Laid (attribute_text name.now value.now) out.old at result out.new }
{
    let spaced = codec::put_u8(out, at, b' ');
    let named = codec::put(name, out, spaced);
    let quoted = codec::put(b"=\"", out, named);
    let valued = escaping::put_escaped(value, out, quoted);
    codec::put_u8(out, valued, b'"')
}

// What documents are printed from: their rows, and the store that has the names.
#[derive(Clone, Copy)]
struct Printer<'a> {
    store: &'a [u8],
    rows: Rows<'a>,
}

impl Printer<'_> {
    // Writes element row i with this name, and what is below it.
    #[cycle(put_element_put_row_put_rows)]
    fn put_element(&self, i: usize, depth: usize, name: &[u8], out: &mut [u8], at: usize) -> Walked
        requires { TextRoom self.now.rows.count (i + 1) depth (at + 1000) × (i < self.now.rows.count) × (depth < 256)
            × (length name.now ≤ 300) }
        ensures { Enclosed (rows_coming self.now.rows)
            (element_text (names_of self.now.store.now) (attribute_names_of self.now.store.now) name.now
            (build (rows_coming self.now.rows (i + 1)) (suc depth)))
            self.now.rows.count i depth at out.old result.next result.at out.new }
    {
        let signed = codec::put_u8(out, at, b'<');
        let named = codec::put(name, out, signed);
        let below = self.put_rows(i + 1, depth + 1, out, named);
        let closing = codec::put(b"</", out, below.at);
        let closed = codec::put(name, out, closing);
        Walked {
            at: codec::put_u8(out, closed, b'>'),
            next: below.next,
        }
    }

    // Writes row i and what is below it, behind a start tag that is open or not.
    #[cycle(put_element_put_row_put_rows)]
    fn put_row(&self, i: usize, depth: usize, opened: bool, out: &mut [u8], at: usize) -> Walked
        requires { TextRoom self.now.rows.count i depth at × (i < self.now.rows.count) × (depth < 256) }
        ensures { Stepped (rows_coming self.now.rows)
            (row_text (names_of self.now.store.now) (attribute_names_of self.now.store.now) opened
            (row_there self.now.rows i).row
            (build (rows_coming self.now.rows (i + 1)) (suc depth)))
            self.now.rows.count i depth at out.old result.next result.at out.new }
    {
        let bytes = self.rows.row(i);
        let sort = layout::row_sort_of(bytes);
        let index = layout::row_index(bytes) as usize;
        if sort == Some(RowSort::Attribute) {
            let name = printing_parts::attribute_name_of(self.store, index);
            let written = put_attribute(name, short_value(bytes), out, at);
            let next = i + 1;
            return Walked { at: written, next };
        }
        let ended = put_end(opened, out, at);
        if sort == Some(RowSort::Element) {
            let name = printing_parts::name_of(self.store, index);
            return self.put_element(i, depth, name, out, ended);
        }
        Walked {
            at: escaping::put_escaped(short_value(bytes), out, ended),
            next: i + 1,
        }
    }

    // Writes the rows of one depth that stand beside one another, behind a start tag that is open.
    #[cycle(put_element_put_row_put_rows)]
    fn put_rows(&self, from: usize, depth: usize, out: &mut [u8], start: usize) -> Walked
        requires { TextRoom self.now.rows.count from depth start }
        ensures { Passed (rows_coming self.now.rows)
            (rows_text (names_of self.now.store.now) (attribute_names_of self.now.store.now) true)
            self.now.rows.count from depth start out.old result.next result.at out.new }
    {
        let mut at = start;
        let mut i = from;
        let mut opened = true;
        // A `while`: it goes on behind what it wrote; a `for` would look at each row once for each element around it.
        while i < self.rows.count {
            let bytes = self.rows.row(i);
            let d = layout::row_depth(bytes) as usize;
            if d < depth {
                let end = put_end(opened, out, at);
                return Walked { at: end, next: i };
            }
            if d == depth {
                let row = self.put_row(i, depth, opened, out, at);
                opened = stays_open(bytes, opened);
                at = row.at;
                i = row.next;
            } else {
                i += 1;
            }
        }
        let end = put_end(opened, out, at);
        Walked { at: end, next: i }
    }

    // Writes the line of the document whose root is row i.
    fn put_document(&self, i: usize, out: &mut [u8], at: usize) -> Walked
        requires { TextRoom self.now.rows.count i 0 at × (i < self.now.rows.count) }
        ensures { Stepped (rows_coming self.now.rows)
            (document_text self.now.store.now (row_there self.now.rows i).row
            (build (rows_coming self.now.rows (i + 1)) 1))
            self.now.rows.count i 0 at out.old result.next result.at out.new }
    {
        let name = row_name_of(self.store, self.rows.row(i));
        let root = self.put_element(i, 0, name, out, at);
        Walked {
            at: codec::put_u8(out, root.at, b'\n'),
            next: root.next,
        }
    }
}

/// Writes the documents, a line each; the store has the names.
pub fn put_documents(store: &[u8], rows: Rows, out: &mut [u8], start: usize) -> usize
    requires { TextRoom rows.count 0 0 start }
    ensures { Laid
        (documents_text (names_of store.now) (attribute_names_of store.now) (build (rows_coming rows.entry 0) 0))
        out.old start result out.new }
{
    let printer = Printer { store, rows };
    let mut at = start;
    let mut i = 0;
    // A `while`: a document is any number of rows.
    while i < rows.count {
        if layout::row_depth(rows.row(i)) == 0 {
            let line = printer.put_document(i, out, at);
            at = line.at;
            i = line.next;
        } else {
            i += 1;
        }
    }
    at
}
