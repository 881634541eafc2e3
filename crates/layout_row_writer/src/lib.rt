//! The row of a store, written: as far as the buffer goes, saying where the next bytes go. The place `at` stands beside
//! the buffer and no tail is lent: it may lie past the end, where the bytes are only counted.
#![tactic(auto)]

ghost use Rattle.std.specs.Prelude.{◌≡◌, [], ◌∷◌, ◌++◌, ◌+◌, ◌<◌, ◌≤◌, ◌^◌, length, take, replicate};
ghost use Rattle.rules.specs.Layout.{row_size, row_bytes, le};
ghost use Rattle.codec.specs.Laid.{Laid};
ghost use Rattle.layout.specs.Bodies.{Width};
ghost use Rattle.layout.specs.RowBytes.{row_of, row_start, row_end, reindexed_row, valued_row, WholeRow, RowLaid};

/// Writes n zero bytes from `at` on, as far as out goes.
pub fn put_zeros(n: usize, out: &mut [u8], at: usize) -> usize
    requires { at + n < 2 ^ 64 }
    ensures { Laid (replicate n 0) out.old at result out.new }
{
    let next = at + n;
    let end = layout::least(next, out.len());
    for i in at..end {
        out[i] = 0;
    }
    next
}

// The fields of a row before the length of its value. A serial past four bytes is refused by the caller. Here and below
// `sort` is the byte, and no RowSort: the clause of `put_row` speaks of every byte.
fn put_row_start(sort: u8, depth: u8, index: u32, serial: usize, out: &mut [u8], at: usize) -> usize
    requires { at + 8 < 9223372036854775808 }
    ensures { Laid (row_start sort depth index serial) out.old at result out.new }
{
    let a = codec::put_u8(out, at, sort);
    let b = codec::put_u8(out, a, depth);
    let c = codec::put_u16(out, b, index);
    codec::put_u32(out, c, (serial % 4294967296) as u32)
}

// The value of a row, from its length to the end of the row.
// That a value is no longer than the width is asked in each clause: a type for both would be made at each call.
fn put_row_end(w: usize, value: &[u8], out: &mut [u8], at: usize) -> usize
    requires { Width w × (at + 4 + w < 9223372036854775808) × (length value.now ≤ w) }
    ensures { Laid (row_end w value.now) out.old at result out.new }
{
    let n = value.len();
    let a = codec::put_u8(out, at, n as u8);
    let b = codec::put_u8(out, a, 0);
    let c = codec::put(value, out, b);
    put_zeros(2 + w - n, out, c)
}

// The bytes of a row before its value, over the front of a buffer.
fn lay_head(sort: u8, depth: u8, index: usize, serial: usize, n: u8, row: &mut [u8])
    requires { 10 ≤ length row.old }
    ensures { Laid (row_start sort depth index serial ++ (n ∷ 0 ∷ [])) row.old 0 10 row.new }
{
    let head = [
        sort,
        depth,
        (index % 256) as u8,
        (index / 256 % 256) as u8,
        (serial % 256) as u8,
        (serial / 256 % 256) as u8,
        (serial / 256 / 256 % 256) as u8,
        (serial / 256 / 256 / 256 % 256) as u8,
        n,
        0,
    ];
    row[..10].copy_from_slice(&head);
}

// Writes a row over a buffer of just its size.
fn lay_row(w: usize, sort: u8, depth: u8, index: usize, serial: usize, value: &[u8], row: &mut [u8])
    requires { Width w × (length row.old ≡ row_size w) × (length value.now ≤ w) }
    ensures { row.new ≡ row_bytes w (row_of sort depth index serial value.now) }
{
    lay_head(sort, depth, index, serial, value.len() as u8, row);
    put_zeros(2 + w, row, 10);
    byte_copy::copy(value, &mut row[10..]);
}

/// Writes a row.
// Where all of it has room, no store asks for the buffer's length.
pub fn put_row(
    w: usize,
    sort: u8,
    depth: usize,
    index: usize,
    serial: usize,
    value: &[u8],
    out: &mut [u8],
    at: usize,
) -> usize
    requires { Width w × (at + row_size w < 9223372036854775808) × (depth < 256) × (index < 65536) × (length value.now ≤ w) }
    ensures { RowLaid w (row_of sort depth index serial value.now) out.old at result out.new }
{
    let end = at + 12 + w;
    if end <= out.len() {
        lay_row(
            w,
            sort,
            depth as u8,
            index,
            serial,
            value,
            &mut out[at..end],
        );
        return end;
    }
    let next = put_row_start(sort, depth as u8, index as u32, serial, out, at);
    put_row_end(w, value, out, next)
}

// The sort and depth of a row, and another index.
fn put_row_index(row: &[u8], index: usize, out: &mut [u8], at: usize) -> usize
    requires { (at + 4 < 9223372036854775808) × (index < 65536) × (2 ≤ length row.now) }
    ensures { Laid (take 2 row.now ++ le 2 index) out.old at result out.new }
{
    let a = codec::put(&row[..2], out, at);
    codec::put_u16(out, a, index as u32)
}

/// Writes a row with another index.
pub fn put_row_moved(w: usize, row: &[u8], index: usize, out: &mut [u8], at: usize) -> usize
    requires { Width w × WholeRow w row.now × (at + row_size w < 9223372036854775808) × (index < 65536) }
    ensures { RowLaid w (reindexed_row index row.now) out.old at result out.new }
{
    if layout::row_index(row) == index as u32 {
        return codec::put(row, out, at);
    }
    let next = put_row_index(row, index, out, at);
    let end = 12 + w;
    codec::put(&row[4..end], out, next)
}

/// Writes a row with another index and another value.
pub fn put_row_valued(
    w: usize,
    row: &[u8],
    index: usize,
    value: &[u8],
    out: &mut [u8],
    at: usize,
) -> usize
    requires { Width w × WholeRow w row.now × (at + row_size w < 9223372036854775808) × (index < 65536) × (length value.now ≤ w) }
    ensures { RowLaid w (valued_row index value.now row.now) out.old at result out.new }
{
    let a = put_row_index(row, index, out, at);
    let b = codec::put(&row[4..8], out, a);
    put_row_end(w, value, out, b)
}
