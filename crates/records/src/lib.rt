//! The tests of single records, on their bytes. All are total: a byte past the end counts 0.
#![tactic(auto)]

ghost use Rattle.std.specs.Prelude.{◌≡◌, Bool};
ghost use Rattle.std.specs.Fn.{FnReturnsAt};
ghost use Rattle.rules.specs.Bytes.{Bytes};
ghost use Rattle.rules.specs.Layout.{definition_size, attribute_size};
ghost use Rattle.rules.specs.WellFormed.{stored_name, given_name, is_value, is_fill};
ghost use Rattle.rules.specs.Conforming.{must_be_present, allows};
ghost use Rattle.rules.specs.Filling.{created_value};
ghost use Rattle.layout.specs.Bodies.{Width};
ghost use Rattle.records.specs.Records.{filled, name_fits, value_fits, definition_fits, attribute_fits, row_fits, each_fits};

use rules::{AttributeSort, RowSort};

// ---- names and values

/// Whether the bytes are a name that may stand in a store.
pub fn stored_name(s: &[u8]) -> bool
    ensures { result ≡ stored_name s.now }
{
    if s.len() == 0 {
        return false;
    }
    byte_check::starts_name(s[0])
        & byte_check::all_in_name(codec::after(s, 1))
        & (s.len() <= layout::NAME_WIDTH)
}

/// Whether the bytes are a name that changes 1 and 9 take: one that may stand in a store and is not reserved.
pub fn given_name(s: &[u8]) -> bool
    ensures { result ≡ given_name s.now }
{
    let reserved = byte_check::is_reserved(s);
    stored_name(s) & !reserved
}

/// Whether the bytes are a value.
pub fn is_value(w: usize, s: &[u8]) -> bool
    ensures { result ≡ is_value w s.now }
{
    (s.len() <= w) & byte_check::all_printable(s)
}

/// Whether a value may stand in an attribute of a sort.
pub fn is_fill(sort: AttributeSort, value: &[u8]) -> bool
    ensures { result ≡ is_fill sort value.now }
{
    match sort {
        AttributeSort::Implied => value.len() == 0,
        AttributeSort::Required => value.len() != 0,
        AttributeSort::Fixed => true,
    }
}

// ---- fields

// Whether a field of `width` bytes at `at` has zeros after its first `used` bytes, and room for these.
fn filled(rec: &[u8], at: usize, used: usize, width: usize) -> bool
    ensures { result ≡ filled rec.now at used width }
{
    if width < used {
        return false;
    }
    let field = codec::first(codec::after(rec, at), width);
    byte_check::zeros(codec::after(field, used))
}

// Whether a name stands at `at`, with its length before it.
fn name_fits(rec: &[u8], at: usize) -> bool
    ensures { result ≡ name_fits rec.now at }
{
    if rec.len() <= at {
        return false;
    }
    let start = at + 1;
    let used = layout::wide(codec::byte(rec, at));
    stored_name(codec::first(codec::after(rec, start), used))
        & filled(rec, start, used, layout::NAME_WIDTH)
}

// Whether a value of `used` bytes stands at `at`.
fn value_fits(w: usize, rec: &[u8], at: usize, used: usize) -> bool
    ensures { result ≡ value_fits w rec.now at used }
{
    is_value(w, codec::first(codec::after(rec, at), used)) & filled(rec, at, used, w)
}

// ---- records

/// Whether a record is a definition's.
// By the bytes of kinds and sorts here and below: the enums have no variant for a byte that is refused.
pub fn definition_fits(rec: &[u8]) -> bool
    ensures { result ≡ definition_fits rec.now }
{
    let kind = layout::definition_kind(rec);
    let particles = layout::definition_particles(rec);
    name_fits(rec, layout::DEFINITION_NAME) & ((kind <= 2) & ((kind == 2) | (particles == 0)))
}

/// Whether a record is that of an attribute, among n definitions.
pub fn attribute_fits(w: usize, rec: &[u8], n: usize) -> bool
    ensures { result ≡ attribute_fits w n rec.now }
{
    let owner = layout::attribute_owner(rec);
    let sort = layout::attribute_sort(rec);
    let used = layout::attribute_length(rec);
    let value = layout::attribute_value(rec);
    (owner < n)
        & (name_fits(rec, layout::ATTRIBUTE_NAME)
            & ((sort <= 2)
                & (value_fits(w, rec, layout::ATTRIBUTE_VALUE, used)
                    & is_fill(AttributeSort::from(sort), value))))
}

/// Whether a record is a row's, apart from its depth.
// It is asked of every row: what is cheap comes first, and the field of an element is not read as a value.
pub fn row_fits(w: usize, rec: &[u8]) -> bool
    requires { Width w }
    ensures { result ≡ row_fits w rec.now }
{
    if !layout::unused_fit(w, rec) {
        return false;
    }
    let sort = layout::row_sort_of(rec);
    let used = layout::row_length(rec);
    let element = sort == Some(RowSort::Element);
    if element {
        if used != 0 {
            return false;
        }
        return filled(rec, layout::ROW_VALUE, 0, w);
    }
    let attribute = sort == Some(RowSort::Attribute);
    let text = sort == Some(RowSort::Text);
    let index = layout::row_index(rec);
    if !(attribute | (text & (index == 0))) {
        return false;
    }
    if !is_value(w, codec::first(codec::after(rec, layout::ROW_VALUE), used)) {
        return false;
    }
    filled(rec, layout::ROW_VALUE, used, w)
}

// ---- bodies

// Whether the first `count` records of a body, of `size` bytes each, pass a test. A body that is too short is read as
// far as it goes.
fn each_fits<F: Fn(&[u8]) -> bool>(body: &[u8], size: usize, count: usize, fits: F) -> bool
    requires { F.IsAlwaysCallable fits }
    ensures { (p : Bytes → Bool) → ((rec : Bytes) (r : Bool) → FnReturnsAt F.Fn fits rec r → r ≡ p rec)
        → result ≡ each_fits p size count body.now }
{
    let mut rest = body;
    for _ in 0..count {
        if !fits(codec::first(rest, size)) {
            return false;
        }
        rest = codec::after(rest, size);
    }
    true
}

/// Whether the first `count` records of a body are definitions'.
pub fn definitions_fit(body: &[u8], count: usize) -> bool
    ensures { result ≡ each_fits definition_fits definition_size count body.now }
{
    each_fits(body, layout::DEFINITION_SIZE, count, definition_fits)
}

/// Whether the first `count` records of a body are those of attributes, among n definitions.
pub fn attributes_fit(w: usize, body: &[u8], count: usize, n: usize) -> bool
    requires { Width w }
    ensures { result ≡ each_fits (attribute_fits w n) (attribute_size w) count body.now }
{
    each_fits(
        body,
        layout::attribute_size(w),
        count,
        |rec| attribute_fits(w, rec, n),
    )
}

// ---- what an attribute's sort says

/// Whether a row of an attribute of this sort must be there, in a store of this version.
pub fn must_be_present(version: usize, sort: AttributeSort) -> bool
    ensures { result ≡ must_be_present version sort }
{
    sort == AttributeSort::Required
}

/// Whether a value is right for an attribute of this sort and this fill.
pub fn value_allowed(sort: AttributeSort, fill: &[u8], value: &[u8]) -> bool
    ensures { result ≡ allows sort fill.now value.now }
{
    match sort {
        AttributeSort::Implied => true,
        AttributeSort::Required => true,
        AttributeSort::Fixed => codec::equal(fill, value),
    }
}

/// The value of a created row of an attribute of this sort and this fill.
pub fn created_value(sort: AttributeSort, fill: &[u8]) -> &[u8]
    ensures { result.now ≡ created_value sort fill.now }
{
    fill
}
