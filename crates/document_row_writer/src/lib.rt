//! The rows that the documents of a text say, written.
#![tactic(auto)]

ghost use Rattle.std.specs.Prelude.{◌≡◌, ◌<◌, ◌≤◌, ◌||◌, eqb, length};
ghost use Rattle.rules.specs.Layout.{row_bytes, each};
ghost use Rattle.codec.specs.Laid.{Laid};
ghost use Rattle.layout.specs.Bodies.{Width};
ghost use Rattle.document_tokens.specs.Tokens.{declared_in};
ghost use Rattle.document_tokens.specs.Telling.{sort_code, FormRoom};
ghost use Rattle.document_row_writer.specs.Putting.{documents_in, rows_or, RowsRead, made_row, made_count, Advanced, RowsPut, Starts, Kept, TokenPut, SomePut};

use rules::RowSort;

// ---- what a token does

// How many rows a token makes.
fn made(sort: Option<RowSort>) -> usize
    ensures { result ≡ made_count (sort_code sort) }
{
    match sort {
        None => 0,
        Some(_) => 1,
    }
}

// Whether a start tag is not ended after a token.
fn tag_after(sort: Option<RowSort>) -> bool
    ensures { result ≡ (eqb (sort_code sort) 1 || eqb (sort_code sort) 2) }
{
    match sort {
        Some(RowSort::Element) => true,
        Some(RowSort::Attribute) => true,
        _ => false,
    }
}

// Writes the row that a token makes, if it makes one.
fn put_made(
    w: usize,
    sort: Option<RowSort>,
    depth: usize,
    index: usize,
    serial: usize,
    value: &[u8],
    out: &mut [u8],
    at: usize,
) -> usize
    requires { Width w × (at < 4611686018429575168) × (depth < 256) × (index < 65536) × (length value.now ≤ w) }
    ensures { RowsPut w (made_row (sort_code sort) depth index serial value.now) out.old at result out.new }
{
    let Some(sort) = sort else {
        return at;
    };
    let code = u8::from(sort);
    layout_row_writer::put_row(w, code, depth, index, serial, value, out, at)
}

// ---- rows, token by token

/// Where documents go on: the definitions that are opened, so many of them as `depth` says, the last innermost; whether
/// a start tag is not ended; how many rows came before.
#[derive(Clone, Copy)]
pub struct Progress {
    pub opened: [u8; 256],
    pub depth: usize,
    pub tag: bool,
    pub count: usize,
}

impl Progress {
    // Opens and closes definitions as a token does.
    fn advance(&mut self, sort: Option<RowSort>, index: usize)
        requires { (length self.old.opened ≡ 256) × (self.old.depth ≤ 255) × (index < 256) × (sort_code sort ≡ 1 → self.old.depth < 255) }
        ensures { Advanced self.old.tag self.old.opened self.old.depth (sort_code sort) index self.new.depth self.new.opened
            × (self.new.tag ≡ self.old.tag) × (self.new.count ≡ self.old.count) }
    {
        match sort {
            Some(RowSort::Element) => {
                self.opened[self.depth] = index as u8;
                self.depth += 1;
            }
            None if !self.tag => self.depth = layout::minus(self.depth, 1),
            _ => {}
        }
    }
}

/// Where documents begin.
pub fn start() -> Progress
    ensures { Starts result.depth result.tag result.count × (length result.opened ≡ 256) }
{
    Progress {
        opened: [0; 256],
        depth: 0,
        tag: false,
        count: 0,
    }
}

/// What was read and written: how many bytes the tokens are, and where the next row is written.
#[derive(Clone, Copy)]
pub struct Written {
    pub size: usize,
    pub at: usize,
}

// Reads the token at the front of a text, its value into `value`, and writes its row; none if it is not exact.
fn put_token(
    w: usize,
    form: &[u8],
    here: &mut Progress,
    text: &[u8],
    value: &mut [u8],
    out: &mut [u8],
    at: usize,
) -> Option<Written>
    requires { Width w × FormRoom form.now × (length here.old.opened ≡ 256) × (here.old.depth ≤ 255) × (here.old.count ≤ 8192) × (0 < length text.now)
        × (w ≤ length value.old) × (at < 4611686018429575168) }
    ensures { TokenPut w (declared_in form.now) text.now here.old.count here.old.opened here.old.depth here.old.tag out.old at result here.new out.new
        × Kept out.old here.new.opened out.new × (length value.new ≡ length value.old) }
{
    let token = document_tokens::token_at(
        w,
        form,
        text,
        &here.opened,
        here.depth,
        here.tag,
        value,
    )?;
    let read = codec::first(value, token.length);
    let serial = here.count + 1;
    let next = put_made(
        w,
        token.sort,
        here.depth,
        token.index,
        serial,
        read,
        out,
        at,
    );
    here.advance(token.sort, token.index);
    here.tag = tag_after(token.sort);
    here.count += made(token.sort);
    Some(Written {
        size: token.size,
        at: next,
    })
}

/// Goes on reading the documents of a text up to row `limit`, and writes their rows; none if a token is not exact, and
/// then the depth, the tag and the count are what they were.
pub fn put_rows(
    w: usize,
    form: &[u8],
    here: &mut Progress,
    limit: usize,
    text: &[u8],
    out: &mut [u8],
    at: usize,
) -> Option<Written>
    requires { Width w × FormRoom form.now × (length here.old.opened ≡ 256) × (here.old.depth ≤ 255) × (here.old.count < limit) × (limit ≤ 8192) × (at < 4611686018427387904) }
    ensures { SomePut w (declared_in form.now) text.now here.old.count here.old.opened here.old.depth here.old.tag limit out.old at result here.new out.new
        × Kept out.old here.new.opened out.new }
{
    let (depth, tag, count) = (here.depth, here.tag, here.count);
    let mut value = [0; 256];
    let mut next = at;
    let mut size = 0;
    // A `while`: a token has any number of bytes, and the rows end it too.
    while (size < text.len()) & (here.count < limit) {
        let t = codec::after(text, size);
        let Some(put) = put_token(w, form, here, t, &mut value, out, next) else {
            here.depth = depth;
            here.tag = tag;
            here.count = count;
            return None;
        };
        next = put.at;
        size += put.size;
    }
    Some(Written { size, at: next })
}

/// Writes the rows of the documents of a text, of which all tokens are exact.
pub fn put_documents(w: usize, form: &[u8], text: &[u8], out: &mut [u8], at: usize) -> usize
    requires { Width w × FormRoom form.now × RowsRead w form.now text.now × (at < 4611686018427387904) }
    ensures { Laid (each (row_bytes w) (rows_or (documents_in w form.now text.now))) out.old at result out.new }
{
    let mut here = start();
    let limit = layout::MAX_ROWS + 1;
    // There are rows, as is required.
    let Some(put) = put_rows(w, form, &mut here, limit, text, out, at) else {
        return at;
    };
    put.at
}
