//! The layout of a store, said once for every width of a value: its shape,
//! its bodies, the records of a body, the fields of a record.
#![tactic(auto)]

ghost use Rattle.std.specs.Prelude.{◌≡◌, min, ◌+◌, ◌-◌, ◌*◌, ◌<◌, take, drop};
ghost use Rattle.rules.specs.Layout.{value_width, header_size, definition_size, particle_size, attribute_size, row_size};
ghost use Rattle.rules.specs.Decode.{number_at, version_in, next_serial, read_definition, read_particle, read_attribute, read_row, definition_count, particle_count, attribute_count, row_count};
ghost use Rattle.rules.specs.RowSorts.{read_sort};
ghost use Rattle.rules.specs.Codes.{read_group};
ghost use Rattle.codec.specs.Part.{part_of};
ghost use Rattle.layout.specs.Fields.{definition_entry_at, particle_entry_at, attribute_entry_at, row_entry_at, attribute_length, row_length, unused_fit};
ghost use Rattle.layout.specs.Bodies.{Width, window_of, Product, record_at, Number, WidthIn, ShapeFits, ShapeOf, attributes_start, rows_start, Place};
ghost use Rattle.layout.specs.Bodies.{definition_body, particle_body, attribute_body, row_body, definitions_in, particles_in, attributes_in, tree_rows_in};
ghost use Rattle.layout.specs.Bodies.{attribute_bytes_in, ValueAt};
ghost use Rattle.layout.specs.Form.{FormOf};
ghost use Rattle.layout.specs.Rows.{RowsIn};

pub mod rows;

use rows::Rows;
use rules::{GroupKind, RowSort};

pub const HEADER_SIZE: usize = 40;

pub const DEFINITION_SIZE: usize = 20;

pub const PARTICLE_SIZE: usize = 4;

pub const NAME_WIDTH: usize = 16;

/// The ceilings of a store.
pub const MAX_DEFINITIONS: usize = 64;

pub const MAX_PARTICLES: usize = 256;

pub const MAX_ATTRIBUTES: usize = 64;

pub const MAX_ROWS: usize = 4096;

/// The most bytes that a form has, of the widest values: 64 definitions, 256 particles, 64 attributes of 116 bytes.
pub const MOST_FORM: usize = 9728;

// Where a name's length stands in its record, right before the name;
// where the others stand that are not read by a call below.

pub const DEFINITION_NAME: usize = 0;

pub const DEFINITION_PARTICLES: usize = 18;

pub const ATTRIBUTE_NAME: usize = 1;

pub const ATTRIBUTE_VALUE: usize = 20;

pub const ROW_VALUE: usize = 10;

/// The n bytes from `at` on, fewer where s ends before.
pub fn window(s: &[u8], at: usize, n: usize) -> &[u8]
    ensures { result.now ≡ window_of at n s.now }
{
    if s.len() < at {
        return &s[..0];
    }
    if s.len() - at < n {
        return &s[at..];
    }
    let end = at + n;
    &s[at..end]
}

/// Bytes of n records. The only product of two numbers that are not known.
pub fn times(size: usize, n: usize) -> usize
    requires { (size < 65536) × (n < 4294967296) }
    ensures { Product size n result }
{
    size * n
}

/// The smaller of two numbers.
pub fn least(a: usize, b: usize) -> usize
    ensures { result ≡ min a b }
{
    a.min(b)
}

/// a - b, or 0.
pub fn minus(a: usize, b: usize) -> usize
    ensures { result ≡ a - b }
{
    a.saturating_sub(b)
}

/// The number that a byte is.
pub fn wide(x: u8) -> usize
    ensures { result ≡ x }
{
    usize::from(x)
}

// ---- sizes

/// Bytes of an attribute.
pub fn attribute_size(w: usize) -> usize
    requires { Width w }
    ensures { result ≡ attribute_size w }
{
    20 + w
}

/// Bytes of a row.
pub fn row_size(w: usize) -> usize
    requires { Width w }
    ensures { result ≡ row_size w }
{
    12 + w
}

/// Bytes of the header.
pub fn header_size() -> usize
    ensures { result ≡ header_size }
{
    HEADER_SIZE
}

// ---- records of a body

/// Record i of a body of records of `size` bytes.
pub fn record_at(s: &[u8], size: usize, i: usize) -> &[u8]
    requires { (size < 65536) × (i < 4294967296) }
    ensures { result.now ≡ record_at size i s.now }
{
    window(s, times(size, i), size)
}

/// Definition i.
pub fn definition_at(defs: &[u8], i: usize) -> &[u8]
    requires { i < 4294967296 }
    ensures { result.now ≡ record_at definition_size i defs.now }
{
    record_at(defs, DEFINITION_SIZE, i)
}

/// Attribute j at a width.
pub fn attribute_at(w: usize, attrs: &[u8], j: usize) -> &[u8]
    requires { Width w × (j < 4294967296) }
    ensures { result.now ≡ record_at (attribute_size w) j attrs.now }
{
    record_at(attrs, 20 + w, j)
}

/// Row i at a width.
pub fn row_at(w: usize, rows: &[u8], i: usize) -> &[u8]
    requires { Width w × (i < 4294967296) }
    ensures { result.now ≡ record_at (row_size w) i rows.now }
{
    record_at(rows, 12 + w, i)
}

// ---- the fields of a definition. Names and values by a function each, of one line: one for all would take two places,
// which each call would write as numbers.

pub fn definition_name(rec: &[u8]) -> &[u8]
    ensures { result.now ≡ (read_definition rec.now).name }
{
    window(rec, 1, wide(codec::byte(rec, 0)))
}

pub fn definition_kind(rec: &[u8]) -> u8
    ensures { result ≡ (read_definition rec.now).kind }
{
    codec::byte(rec, 17)
}

pub fn definition_particles(rec: &[u8]) -> u32
    ensures { result ≡ (read_definition rec.now).particles }
{
    codec::get_u16(rec, DEFINITION_PARTICLES)
}

// ---- the fields of a row

pub fn row_sort(row: &[u8]) -> u8
    ensures { result ≡ (read_row row.now).row.sort }
{
    codec::byte(row, 0)
}

/// The sort of a row; none where its byte is no sort's.
pub fn row_sort_of(row: &[u8]) -> Option<RowSort>
    ensures { result ≡ read_sort (read_row row.now).row.sort }
{
    RowSort::read(row_sort(row))
}

pub fn row_depth(row: &[u8]) -> u8
    ensures { result ≡ (read_row row.now).depth }
{
    codec::byte(row, 1)
}

pub fn row_index(row: &[u8]) -> u32
    ensures { result ≡ (read_row row.now).row.index }
{
    codec::get_u16(row, 2)
}

pub fn row_serial(row: &[u8]) -> u32
    ensures { result ≡ (read_row row.now).row.serial }
{
    codec::get_u32(row, 4)
}

/// The serial of row i, read with no window.
pub fn row_serial_at(w: usize, rows: &[u8], i: usize) -> u32
    requires { Width w × (i < 4294967296) }
    ensures { result ≡ (read_row (record_at (row_size w) i rows.now)).row.serial }
{
    let start = times(12 + w, i);
    codec::get_u32(rows, start + 4)
}

/// How long the row says that its value is.
pub fn row_length(row: &[u8]) -> usize
    ensures { result ≡ row_length row.now }
{
    wide(codec::byte(row, 8))
}

pub fn row_value(row: &[u8]) -> &[u8]
    ensures { result.now ≡ (read_row row.now).row.value }
{
    window(row, ROW_VALUE, wide(codec::byte(row, 8)))
}

/// What stands in a row after n bytes of its value: the rest of the field, and two bytes.
pub fn row_rest(w: usize, row: &[u8], n: usize) -> &[u8]
    requires { Width w × (n < 256) }
    ensures { result.now ≡ window_of (10 + n) (2 + w) row.now }
{
    window(row, ROW_VALUE + n, 2 + w)
}

/// Whether the bytes of a row that no field has are zeros.
pub fn unused_fit(w: usize, rec: &[u8]) -> bool
    requires { Width w }
    ensures { result ≡ unused_fit w rec.now }
{
    (codec::byte(rec, 9) == 0) & ((codec::byte(rec, 10 + w) == 0) & (codec::byte(rec, 11 + w) == 0))
}

// ---- the fields of an attribute

pub fn attribute_owner(rec: &[u8]) -> usize
    ensures { result ≡ (read_attribute rec.now).owner }
{
    wide(codec::byte(rec, 0))
}

/// The owner of attribute j.
pub fn attribute_owner_at(w: usize, attrs: &[u8], j: usize) -> usize
    requires { Width w × (j < 4294967296) }
    ensures { result ≡ (read_attribute (record_at (attribute_size w) j attrs.now)).owner }
{
    attribute_owner(attribute_at(w, attrs, j))
}

pub fn attribute_name(rec: &[u8]) -> &[u8]
    ensures { result.now ≡ (read_attribute rec.now).name }
{
    window(rec, 2, wide(codec::byte(rec, 1)))
}

pub fn attribute_sort(rec: &[u8]) -> u8
    ensures { result ≡ (read_attribute rec.now).sort }
{
    codec::byte(rec, 18)
}

/// How long the attribute says that its value is.
pub fn attribute_length(rec: &[u8]) -> usize
    ensures { result ≡ attribute_length rec.now }
{
    wide(codec::byte(rec, 19))
}

pub fn attribute_value(rec: &[u8]) -> &[u8]
    ensures { result.now ≡ (read_attribute rec.now).value }
{
    window(rec, ATTRIBUTE_VALUE, wide(codec::byte(rec, 19)))
}

// ---- the header

/// The width of a value, by the version.
pub fn width_of(version: u32) -> usize
    ensures { result ≡ value_width version }
{
    32
}

/// The width of a value in a store.
pub fn width_in(store: &[u8]) -> usize
    ensures { WidthIn store.now result }
{
    width_of(codec::get_u32(store, 0))
}

fn number(store: &[u8], at: usize) -> usize
    ensures { Number (number_at at 4 store.now) result }
{
    codec::get_u32(store, at) as usize
}

pub fn version_in(store: &[u8]) -> usize
    ensures { Number (version_in store.now) result }
{
    number(store, 0)
}

pub fn next_serial(store: &[u8]) -> usize
    ensures { Number (next_serial store.now) result }
{
    number(store, 4)
}

// An index is asked to be below it in the clauses: a type of such indices would be made and opened at each call.
pub fn definition_count(store: &[u8]) -> usize
    ensures { Number (definition_count store.now) result }
{
    number(store, 12)
}

pub fn particle_count(store: &[u8]) -> usize
    ensures { Number (particle_count store.now) result }
{
    number(store, 20)
}

pub fn attribute_count(store: &[u8]) -> usize
    ensures { Number (attribute_count store.now) result }
{
    number(store, 28)
}

pub fn row_count(store: &[u8]) -> usize
    ensures { Number (row_count store.now) result }
{
    number(store, 36)
}

// ---- the records of a store, whose bodies need not be cut out

/// Definition i of a store.
pub fn definition_in(store: &[u8], i: usize) -> &[u8]
    requires { i < 4294967296 }
    ensures { result.now ≡ window_of (header_size + definition_size * i) definition_size store.now }
{
    window(store, HEADER_SIZE + DEFINITION_SIZE * i, DEFINITION_SIZE)
}

/// Particle i of a store.
pub fn particle_in(store: &[u8], i: usize) -> &[u8]
    requires { i < 4294967296 }
    ensures { result.now ≡ window_of (header_size + definition_size * definition_count store.now + particle_size * i) particle_size store.now }
{
    let definitions = definition_count(store);
    window(
        store,
        HEADER_SIZE + DEFINITION_SIZE * definitions + PARTICLE_SIZE * i,
        PARTICLE_SIZE,
    )
}

/// Attribute i of a store.
pub fn attribute_in(store: &[u8], i: usize) -> &[u8]
    requires { i < 4294967296 }
    ensures { result.now ≡ attribute_bytes_in store.now i }
{
    let w = width_in(store);
    let definitions = definition_count(store);
    let particles = particle_count(store);
    let before = times(20 + w, i);
    window(
        store,
        HEADER_SIZE + DEFINITION_SIZE * definitions + PARTICLE_SIZE * particles + before,
        20 + w,
    )
}

// ---- the offsets in the header

pub fn definition_offset(store: &[u8]) -> usize
    ensures { Number (number_at definition_entry_at 4 store.now) result }
{
    number(store, 8)
}

pub fn particle_offset(store: &[u8]) -> usize
    ensures { Number (number_at particle_entry_at 4 store.now) result }
{
    number(store, 16)
}

pub fn attribute_offset(store: &[u8]) -> usize
    ensures { Number (number_at attribute_entry_at 4 store.now) result }
{
    number(store, 24)
}

pub fn row_offset(store: &[u8]) -> usize
    ensures { Number (number_at row_entry_at 4 store.now) result }
{
    number(store, 32)
}

// ---- where the bodies begin and where a store ends, by counts

/// Bytes before n definitions, and those of the definitions.
pub fn through_definitions(n: usize) -> usize
    requires { n < 4294967296 }
    ensures { Place (header_size + definition_size * n) result }
{
    HEADER_SIZE + DEFINITION_SIZE * n
}

/// The same with p particles.
pub fn through_particles(n: usize, p: usize) -> usize
    requires { (n < 4294967296) × (p < 4294967296) }
    ensures { Place (header_size + definition_size * n + particle_size * p) result }
{
    HEADER_SIZE + DEFINITION_SIZE * n + PARTICLE_SIZE * p
}

/// The same with a attributes.
pub fn through_attributes(w: usize, n: usize, p: usize, a: usize) -> usize
    requires { Width w × (n < 4294967296) × (p < 4294967296) × (a < 4294967296) }
    ensures { Place (header_size + definition_size * n + particle_size * p + attribute_size w * a) result }
{
    let start = through_particles(n, p);
    start + times(attribute_size(w), a)
}

/// The same with m rows: the length of a store.
pub fn through_rows(w: usize, n: usize, p: usize, a: usize, m: usize) -> usize
    requires { Width w × (n < 4294967296) × (p < 4294967296) × (a < 4294967296) × (m < 4294967296) }
    ensures { result ≡ header_size + (definition_size * n + (particle_size * p + (attribute_size w * a + row_size w * m))) }
{
    let start = through_attributes(w, n, p, a);
    start + times(row_size(w), m)
}

/// What the header says, and the width of a value by the version.
#[derive(Clone, Copy)]
pub struct Shape {
    pub version: u32,
    pub width: usize,
    pub definitions: usize,
    pub particles: usize,
    pub attributes: usize,
    pub rows: usize,
}

/// The shape of a store.
pub fn shape_of(store: &[u8]) -> Shape
    ensures { ShapeOf store.now result }
{
    let version = codec::get_u32(store, 0);
    let width = width_of(version);
    let definitions = definition_count(store);
    let particles = particle_count(store);
    let attributes = attribute_count(store);
    let rows = row_count(store);
    Shape {
        version,
        width,
        definitions,
        particles,
        attributes,
        rows,
    }
}

/// The definitions of a store.
pub fn definition_body(store: &[u8], s: Shape) -> &[u8]
    requires { ShapeFits s }
    ensures { result.now ≡ definition_body s store.now }
{
    window(store, HEADER_SIZE, DEFINITION_SIZE * s.definitions)
}

/// The particles of a store.
pub fn particle_body(store: &[u8], s: Shape) -> &[u8]
    requires { ShapeFits s }
    ensures { result.now ≡ particle_body s store.now }
{
    window(
        store,
        HEADER_SIZE + DEFINITION_SIZE * s.definitions,
        PARTICLE_SIZE * s.particles,
    )
}

/// Where the attributes begin.
pub fn attributes_start(s: Shape) -> usize
    requires { ShapeFits s }
    ensures { Place (attributes_start s) result }
{
    HEADER_SIZE + DEFINITION_SIZE * s.definitions + PARTICLE_SIZE * s.particles
}

/// Where the rows begin.
pub fn rows_start(s: Shape) -> usize
    requires { ShapeFits s }
    ensures { Place (rows_start s) result }
{
    let start = attributes_start(s);
    start + times(20 + s.width, s.attributes)
}

/// The attributes of a store.
pub fn attribute_body(store: &[u8], s: Shape) -> &[u8]
    requires { ShapeFits s }
    ensures { result.now ≡ attribute_body s store.now }
{
    let start = attributes_start(s);
    window(store, start, times(20 + s.width, s.attributes))
}

/// The rows of a store.
pub fn row_body(store: &[u8], s: Shape) -> &[u8]
    requires { ShapeFits s }
    ensures { result.now ≡ row_body s store.now }
{
    let start = rows_start(s);
    window(store, start, times(12 + s.width, s.rows))
}

// The four bodies by a function each, of two lines: one for all would take the reader of the body, and its clause be that
// of any reader.

/// The definitions of a store, by its own header.
pub fn definitions_of(store: &[u8]) -> &[u8]
    ensures { result.now ≡ definitions_in store.now }
{
    let s = shape_of(store);
    definition_body(store, s)
}

/// The particles of a store, by its own header.
pub fn particles_of(store: &[u8]) -> &[u8]
    ensures { result.now ≡ particles_in store.now }
{
    let s = shape_of(store);
    particle_body(store, s)
}

/// The attributes of a store, by its own header.
pub fn attributes_of(store: &[u8]) -> &[u8]
    ensures { result.now ≡ attributes_in store.now }
{
    let s = shape_of(store);
    attribute_body(store, s)
}

/// The rows of a store, by its own header.
pub fn rows_of(store: &[u8]) -> &[u8]
    ensures { result.now ≡ tree_rows_in store.now }
{
    let s = shape_of(store);
    row_body(store, s)
}

/// A form that is lent: its version, the width of a value, and its bodies with how many records each has.
#[derive(Clone, Copy)]
pub struct Form<'a> {
    pub version: usize,
    pub width: usize,
    pub definition_count: usize,
    pub particle_count: usize,
    pub attribute_count: usize,
    pub definitions: &'a [u8],
    pub particles: &'a [u8],
    pub attributes: &'a [u8],
}

/// The form of a store, by its own header.
pub fn form_of(store: &[u8]) -> Form<'_>
    ensures { FormOf store.now result }
{
    let s = shape_of(store);
    Form {
        version: s.version as usize,
        width: s.width,
        definition_count: s.definitions,
        particle_count: s.particles,
        attribute_count: s.attributes,
        definitions: definition_body(store, s),
        particles: particle_body(store, s),
        attributes: attribute_body(store, s),
    }
}

/// The tree rows of a store as they are lent, by its own header.
pub fn rows_in(store: &[u8]) -> Rows<'_>
    ensures { RowsIn store.now result }
{
    let s = shape_of(store);
    Rows {
        width: s.width,
        bytes: row_body(store, s),
        count: s.rows,
    }
}

// ---- the fields of a particle, and the owner of an attribute as its byte

/// Bytes of a particle.
pub fn particle_size() -> usize
    ensures { result ≡ particle_size }
{
    PARTICLE_SIZE
}

/// Particle i.
pub fn particle_at(parts: &[u8], i: usize) -> &[u8]
    requires { i < 4294967296 }
    ensures { result.now ≡ record_at particle_size i parts.now }
{
    record_at(parts, PARTICLE_SIZE, i)
}

pub fn particle_sort(rec: &[u8]) -> u8
    ensures { result ≡ (read_particle rec.now).row.sort }
{
    codec::byte(rec, 0)
}

/// The kind of a particle that is a group; none where it is an element.
pub fn group_kind_of(rec: &[u8]) -> Option<GroupKind>
    ensures { result ≡ read_group (read_particle rec.now).row.sort }
{
    match particle_sort(rec) {
        0 => None,
        sort => Some(GroupKind::from(sort)),
    }
}

pub fn particle_quantifier(rec: &[u8]) -> u8
    ensures { result ≡ (read_particle rec.now).row.quantifier }
{
    codec::byte(rec, 1)
}

pub fn particle_index(rec: &[u8]) -> u8
    ensures { result ≡ (read_particle rec.now).row.index }
{
    codec::byte(rec, 2)
}

pub fn particle_depth(rec: &[u8]) -> u8
    ensures { result ≡ (read_particle rec.now).depth }
{
    codec::byte(rec, 3)
}

pub fn owner_byte(rec: &[u8]) -> u8
    ensures { result ≡ (read_attribute rec.now).owner }
{
    codec::byte(rec, 0)
}

// ---- parts of a body

/// Bytes of a definition.
pub fn definition_size() -> usize
    ensures { result ≡ definition_size }
{
    DEFINITION_SIZE
}

// All but the first i records of a body of records of `size` bytes.
fn records_from(s: &[u8], size: usize, i: usize) -> &[u8]
    requires { (size < 65536) × (i < 4294967296) }
    ensures { result.now ≡ drop (size * i) s.now }
{
    window(s, times(size, i), s.len())
}

/// The first i definitions.
pub fn definitions_to(defs: &[u8], i: usize) -> &[u8]
    requires { i < 4294967296 }
    ensures { result.now ≡ take (definition_size * i) defs.now }
{
    window(defs, 0, DEFINITION_SIZE * i)
}

/// All but the first i definitions.
pub fn definitions_from(defs: &[u8], i: usize) -> &[u8]
    requires { i < 4294967296 }
    ensures { result.now ≡ drop (definition_size * i) defs.now }
{
    records_from(defs, DEFINITION_SIZE, i)
}

/// All but the first i particles.
pub fn particles_from(parts: &[u8], i: usize) -> &[u8]
    requires { i < 4611686018427387904 }
    ensures { result.now ≡ drop (particle_size * i) parts.now }
{
    window(parts, PARTICLE_SIZE * i, parts.len())
}

/// All but the first i attributes.
pub fn attributes_from(w: usize, attrs: &[u8], i: usize) -> &[u8]
    requires { Width w × (i < 4294967296) }
    ensures { result.now ≡ drop (attribute_size w * i) attrs.now }
{
    records_from(attrs, 20 + w, i)
}

/// n particles from number `at` on; none where the body ends before.
pub fn particles_part(parts: &[u8], at: usize, n: usize) -> &[u8]
    requires { (at < 1099511627776) × (n < 4294967296) }
    ensures { result.now ≡ part_of (particle_size * at) (particle_size * n) parts.now }
{
    codec::part(parts, PARTICLE_SIZE * at, PARTICLE_SIZE * n)
}

// ---- fields of record i, read where they stand in the body: loops over all particles take them so, for one test each.
// One for all would take the field's place in the record, which each call would write as a number.

pub fn particle_sort_at(parts: &[u8], i: usize) -> usize
    requires { i < 4294967296 }
    ensures { result ≡ (read_particle (record_at particle_size i parts.now)).row.sort }
{
    wide(codec::byte(parts, PARTICLE_SIZE * i))
}

pub fn particle_quantifier_at(parts: &[u8], i: usize) -> usize
    requires { i < 4294967296 }
    ensures { result ≡ (read_particle (record_at particle_size i parts.now)).row.quantifier }
{
    wide(codec::byte(parts, PARTICLE_SIZE * i + 1))
}

pub fn particle_index_at(parts: &[u8], i: usize) -> usize
    requires { i < 4294967296 }
    ensures { result ≡ (read_particle (record_at particle_size i parts.now)).row.index }
{
    wide(codec::byte(parts, PARTICLE_SIZE * i + 2))
}

pub fn particle_depth_at(parts: &[u8], i: usize) -> usize
    requires { i < 4294967296 }
    ensures { result ≡ (read_particle (record_at particle_size i parts.now)).depth }
{
    wide(codec::byte(parts, PARTICLE_SIZE * i + 3))
}

pub fn definition_particles_at(defs: &[u8], i: usize) -> u32
    requires { i < 4294967296 }
    ensures { result ≡ (read_definition (record_at definition_size i defs.now)).particles }
{
    codec::get_u16(defs, DEFINITION_SIZE * i + DEFINITION_PARTICLES)
}

/// Where the value stands of a row that begins at `start`.
pub fn value_place(start: usize) -> usize
    requires { start < 9223372036854775808 }
    ensures { ValueAt start result }
{
    start + ROW_VALUE
}
