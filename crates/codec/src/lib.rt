//! Bytes and little-endian numbers in a byte string: read, written, compared.
#![tactic(auto)]

ghost use Rattle.std.specs.Prelude.{◌≡◌, [], ◌∷◌, ◌+◌, ◌<◌, ◌^◌, length, get_or, set, take, drop};
ghost use Rattle.std.proofs.lemmas.List.Edits.{sets};
ghost use Rattle.rules.specs.Bytes.{same};
ghost use Rattle.rules.specs.Layout.{le};
ghost use Rattle.rules.specs.Decode.{number_at};
ghost use Rattle.codec.specs.Laid.{Laid};
ghost use Rattle.codec.specs.Part.{part_of};

/// The byte at i, or 0 past the end.
pub fn byte(s: &[u8], i: usize) -> u8
    ensures { result ≡ get_or s.now i 0 }
{
    if i < s.len() { s[i] } else { 0 }
}

/// The number of two bytes at `at`; bytes past the end count 0.
pub fn get_u16(s: &[u8], at: usize) -> u32
    ensures { result ≡ number_at at 2 s.now }
{
    if s.len() <= at {
        return 0;
    }
    if 2 <= s.len() - at {
        return little_endian::two(s[at], s[at + 1]);
    }
    little_endian::wide(s[at])
}

/// The number of four bytes at `at`; bytes past the end count 0.
pub fn get_u32(s: &[u8], at: usize) -> u32
    ensures { result ≡ number_at at 4 s.now }
{
    if s.len() <= at {
        return 0;
    }
    if 4 <= s.len() - at {
        return little_endian::four(s[at], s[at + 1], s[at + 2], s[at + 3]);
    }
    little_endian::four(
        byte(s, at),
        byte(s, at + 1),
        byte(s, at + 2),
        byte(s, at + 3),
    )
}

/// What stands from n on.
pub fn after(s: &[u8], n: usize) -> &[u8]
    ensures { result.now ≡ drop n s.now }
{
    if n < s.len() {
        return &s[n..];
    }
    &s[..0]
}

/// The first n bytes, or all if there are fewer.
pub fn first(s: &[u8], n: usize) -> &[u8]
    ensures { result.now ≡ take n s.now }
{
    if n < s.len() {
        return &s[..n];
    }
    s
}

/// The n bytes from `at` on, or none where s is too short for them.
pub fn part(s: &[u8], at: usize, n: usize) -> &[u8]
    ensures { result.now ≡ part_of at n s.now }
{
    if s.len() < at {
        return &s[..0];
    }
    if s.len() - at < n {
        return &s[..0];
    }
    let end = at + n;
    &s[at..end]
}

/// Whether two byte strings are equal.
// The library's, with the clause in the words of the rules.
pub fn equal(a: &[u8], b: &[u8]) -> bool
    ensures { result ≡ same a.now b.now }
{
    a == b
}

/// Stores a byte where there is room.
pub fn store(out: &mut [u8], at: usize, x: u8)
    ensures { out.new ≡ set out.old at x }
{
    if at < out.len() {
        out[at] = x;
    }
}

/// Writes src over the front of out, as far as out goes.
pub fn lay(src: &[u8], out: &mut [u8])
    ensures { out.new ≡ sets out.old 0 src.now }
{
    for (i, x) in src.iter().enumerate() {
        store(out, i, *x);
    }
}

// The writers below write as far as out goes and say where the next
// bytes go, so that writing into an empty buffer measures.
// So a buffer goes with a place in all writers: a subslice would end where the buffer does.

/// Writes src from `at` on. The free tail of out is lent on.
pub fn put(src: &[u8], out: &mut [u8], at: usize) -> usize
    requires { at + length src.now < 2 ^ 64 }
    ensures { Laid src.now out.old at result out.new }
{
    let next = at + src.len();
    if next <= out.len() {
        byte_copy::copy(src, &mut out[at..]);
        return next;
    }
    if at <= out.len() {
        lay(src, &mut out[at..]);
    }
    next
}

/// Writes one byte at `at`.
pub fn put_u8(out: &mut [u8], at: usize, x: u8) -> usize
    requires { at + 1 < 2 ^ 64 }
    ensures { Laid (x ∷ []) out.old at result out.new }
{
    store(out, at, x);
    at + 1
}

/// Writes the two low bytes of a number at `at`.
pub fn put_u16(out: &mut [u8], at: usize, x: u32) -> usize
    requires { at + 2 < 2 ^ 64 }
    ensures { Laid (le 2 x) out.old at result out.new }
{
    let next = put_u8(out, at, (x % 256) as u8);
    put_u8(out, next, (x / 256 % 256) as u8)
}

/// Writes the four bytes of a number at `at`.
pub fn put_u32(out: &mut [u8], at: usize, x: u32) -> usize
    requires { at + 4 < 2 ^ 64 }
    ensures { Laid (le 4 x) out.old at result out.new }
{
    let next = put_u16(out, at, x);
    put_u16(out, next, x / 65536)
}
