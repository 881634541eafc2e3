//! The check: whether a byte string is a store.
#![tactic(auto)]

ghost use Rattle.std.specs.Prelude.{◌≡◌, ◌↔◌, true};
ghost use Rattle.rules.specs.Decode.{row_count};
ghost use Rattle.rules.specs.Passing.{passes};
ghost use Rattle.layout.specs.Bodies.{width_of, ShapeOf};
ghost use Rattle.records.specs.Records.{header_fits};
ghost use Rattle.row_check.specs.Walking.{bytes_before};
ghost use Rattle.store_check.specs.Check.{FormIn, walk_answer, serials_differ};

use layout::Shape;
use layout::rows::Rows;

// ---- the form

// Whether the form passes: each definition and attribute by itself, the bodies together, and no circle.
fn form_passes(store: &[u8]) -> bool
    requires { header_fits (width_of store.now) store.now ≡ true }
    ensures { (result ≡ true) ↔ FormIn store.now }
{
    let form = layout::form_of(store);
    let n = form.definition_count;
    if !records::definitions_fit(form.definitions, n) {
        return false;
    }
    if !records::attributes_fit(form.width, form.attributes, form.attribute_count, n) {
        return false;
    }
    if !form_check::bodies_fit(&form) {
        return false;
    }
    circle_check::heights_of(n, form.definitions, form.particles).is_ok()
}

// ---- the rows

// The bytes before the tree body.
fn before_rows(store: &[u8], s: Shape) -> &[u8]
    requires { ShapeOf store.now s }
    ensures { result.now ≡ bytes_before store.now }
{
    let at = layout::through_attributes(s.width, s.definitions, s.particles, s.attributes);
    codec::first(store, at)
}

// Whether the rows pass, by one walk over them: each by itself, and all as documents that conform to the form.
fn documents_pass(store: &[u8], s: Shape) -> bool
    requires { (header_fits (width_of store.now) store.now ≡ true) × ShapeOf store.now s }
    ensures { result ≡ walk_answer store.now }
{
    let before = before_rows(store, s);
    let next = layout::next_serial(before);
    let rows = layout::row_body(store, s);
    row_check::rows_pass(before, next, rows, s.rows)
}

// Whether no two rows have one serial: what compares rows with each other walks apart.
fn serials_pass(store: &[u8], s: Shape) -> bool
    requires { (header_fits (width_of store.now) store.now ≡ true) × ShapeOf store.now s }
    ensures { result ≡ serials_differ store.now }
{
    let rows = Rows {
        width: s.width,
        bytes: layout::row_body(store, s),
        count: s.rows,
    };
    serial_check::serials_differ(rows)
}

// ---- all

/// Whether a byte string is the encoding of a store that passes.
pub fn passes(store: &[u8]) -> bool
    ensures { result ≡ passes store.now }
{
    let s = layout::shape_of(store);
    if !header_check::header_fits(s.width, store) {
        return false;
    }
    if !form_passes(store) {
        return false;
    }
    if !documents_pass(store, s) {
        return false;
    }
    serials_pass(store, s)
}

/// The same of a byte string without rows, in the stack that its form needs: the table of the row check is not made.
pub fn passes_bare(store: &[u8]) -> bool
    requires { row_count store.now ≡ 0 }
    ensures { result ≡ passes store.now }
{
    let s = layout::shape_of(store);
    if !header_check::header_fits(s.width, store) {
        return false;
    }
    form_passes(store)
}
