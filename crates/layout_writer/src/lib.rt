//! The header and the records of a form, written: as far as the buffer goes, each saying where the next bytes go.
#![tactic(auto)]

ghost use Rattle.std.specs.Prelude.{◌∷◌, ◌+◌, ◌<◌, ◌≤◌, length};
ghost use Rattle.rules.specs.Layout.{name_width, attribute_size, entry, field, quantifier_code, definition_bytes, particle_bytes, attribute_bytes};
ghost use Rattle.codec.specs.Laid.{Laid};
ghost use Rattle.layout.specs.Bodies.{Width};
ghost use Rattle.layout.specs.RecordBytes.{definition_of, attribute_of, flat_particle, indexed_bytes, owned_bytes, counted_bytes};
ghost use Rattle.layout.specs.Header.{contents, headed};
ghost use Rattle.layout_writer.specs.Sorts.{sort_number};

use rules::{GroupKind, Quantifier};

// ---- the header, written

// Writes an entry of the table of contents.
fn put_entry(offset: usize, count: usize, out: &mut [u8], at: usize) -> usize
    requires { (offset < 4294967296) × (count < 4294967296) × (at < 4611686018427387904) }
    ensures { Laid (entry offset count) out.old at result out.new }
{
    let next = codec::put_u32(out, at, offset as u32);
    codec::put_u32(out, next, count as u32)
}

/// Writes the table of contents for d definitions, p particles, a attributes and r rows.
pub fn put_contents(
    w: usize,
    d: usize,
    p: usize,
    a: usize,
    r: usize,
    out: &mut [u8],
    at: usize,
) -> usize
    requires { Width w × (d ≤ 65) × (p ≤ 256) × (a ≤ 64) × (r < 4294967296) × (at ≤ 40) }
    ensures { Laid (contents w d p a r) out.old at result out.new }
{
    let particles = layout::through_definitions(d);
    let attributes = layout::through_particles(d, p);
    let rows = layout::through_attributes(w, d, p, a);
    let first = put_entry(layout::HEADER_SIZE, d, out, at);
    let second = put_entry(particles, p, out, first);
    let third = put_entry(attributes, a, out, second);
    put_entry(rows, r, out, third)
}

/// Writes the header of a store with another next serial and other counts.
pub fn put_header(
    w: usize,
    store: &[u8],
    next: usize,
    d: usize,
    p: usize,
    a: usize,
    r: usize,
    out: &mut [u8],
) -> usize
    requires { Width w × (next < 4294967296) × (d ≤ 65) × (p ≤ 256) × (a ≤ 64) × (r < 4294967296) }
    ensures { Laid (headed w next d p a r store.now) out.old 0 result out.new }
{
    let version = codec::put(layout::window(store, 0, 4), out, 0);
    let serial = codec::put_u32(out, version, next as u32);
    put_contents(w, d, p, a, r, out, serial)
}

// ---- the records of a form, written

/// Writes a value, zero filled to a width.
pub fn put_field(s: &[u8], width: usize, out: &mut [u8], at: usize) -> usize
    requires { Width width × (length s.now ≤ width) × (at < 4611686018427387904) }
    ensures { Laid (field width s.now) out.old at result out.new }
{
    let next = codec::put(s, out, at);
    layout_row_writer::put_zeros(width - s.len(), out, next)
}

// The length of a value, and the value in its field.
fn put_value(s: &[u8], width: usize, out: &mut [u8], at: usize) -> usize
    requires { Width width × (length s.now ≤ width) × (at < 2305843009213693952) }
    ensures { Laid (length s.now ∷ field width s.now) out.old at result out.new }
{
    let next = codec::put_u8(out, at, s.len() as u8);
    put_field(s, width, out, next)
}

/// Writes a definition. Its kind is a byte, whatever it is: a type would shut out those that no kind has.
// That a name fits is asked in the clauses: a type for a short name would be made and opened in one call.
pub fn put_definition(name: &[u8], kind: u8, particles: u32, out: &mut [u8], at: usize) -> usize
    requires { (length name.now ≤ name_width) × (at < 1152921504606846976) }
    ensures { Laid (definition_bytes (definition_of name.now kind particles)) out.old at result out.new }
{
    let a = put_value(name, layout::NAME_WIDTH, out, at);
    let b = codec::put_u8(out, a, kind);
    codec::put_u16(out, b, particles)
}

/// Writes an attribute. Its sort is a byte, as a definition's kind is.
// The fields one by one: a struct of them would be written out at each of four calls, and taken apart here.
pub fn put_attribute(
    w: usize,
    owner: u8,
    name: &[u8],
    sort: u8,
    value: &[u8],
    out: &mut [u8],
    at: usize,
) -> usize
    requires { Width w × (length name.now ≤ name_width) × (length value.now ≤ w) × (at < 1152921504606846976) }
    ensures { Laid (attribute_bytes w (attribute_of owner name.now sort value.now)) out.old at result out.new }
{
    let a = codec::put_u8(out, at, owner);
    let b = put_value(name, layout::NAME_WIDTH, out, a);
    let c = codec::put_u8(out, b, sort);
    put_value(value, w, out, c)
}

/// Writes a particle with another index.
pub fn put_particle_moved(rec: &[u8], index: u8, out: &mut [u8], at: usize) -> usize
    requires { at < 4611686018427387904 }
    ensures { Laid (indexed_bytes index rec.now) out.old at result out.new }
{
    let depth = layout::particle_depth(rec);
    let a = codec::put(layout::window(rec, 0, 2), out, at);
    let b = codec::put_u8(out, a, index);
    codec::put_u8(out, b, depth)
}

/// Writes an attribute with another owner.
pub fn put_attribute_moved(w: usize, rec: &[u8], owner: u8, out: &mut [u8], at: usize) -> usize
    requires { Width w × (length rec.now ≤ attribute_size w) × (at < 4611686018427387904) }
    ensures { Laid (owned_bytes owner rec.now) out.old at result out.new }
{
    let next = codec::put_u8(out, at, owner);
    codec::put(layout::window(rec, 1, 20 + w), out, next)
}

/// Writes a particle. Its sort and its quantifier are bytes: `model_writer` writes the particles of a store again,
/// whatever theirs are.
pub fn put_particle(
    sort: u8,
    quantifier: u8,
    index: u8,
    depth: u8,
    out: &mut [u8],
    at: usize,
) -> usize
    requires { at < 9223372036854775808 }
    ensures { Laid (particle_bytes (flat_particle sort quantifier index depth)) out.old at result out.new }
{
    let a = codec::put_u8(out, at, sort);
    let b = codec::put_u8(out, a, quantifier);
    let c = codec::put_u8(out, b, index);
    codec::put_u8(out, c, depth)
}

/// Writes a new particle: a group of a kind, or an element.
pub fn put_new_particle(
    kind: Option<GroupKind>,
    quantifier: Quantifier,
    index: u8,
    depth: u8,
    out: &mut [u8],
    at: usize,
) -> usize
    requires { at < 9223372036854775808 }
    ensures { Laid (particle_bytes (flat_particle (sort_number kind) (quantifier_code quantifier) index depth)) out.old at result out.new }
{
    let sort = kind.map_or(0, u8::from);
    put_particle(sort, u8::from(quantifier), index, depth, out, at)
}

/// Writes all definitions, number o with n particles.
pub fn put_counted(defs: &[u8], o: usize, n: u32, out: &mut [u8], at: usize) -> usize
    requires { (o < 4294967296) × (at + length defs.now < 4611686018427387904) }
    ensures { Laid (counted_bytes o n defs.now) out.old at result out.new }
{
    let place = layout::DEFINITION_SIZE * o + layout::DEFINITION_PARTICLES;
    let next = codec::put(layout::window(defs, 0, place), out, at);
    let end = codec::put_u16(out, next, n);
    codec::put(layout::window(defs, place + 2, defs.len()), out, end)
}
