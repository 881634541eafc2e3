//! The rows of a store by their serials, the rows right below a row, and whether a model takes them.
#![tactic(auto)]

ghost use Rattle.std.specs.Prelude.{◌≡◌, true, false, map, slice_get, unwrap_or, ◌<◌, ◌≤◌};
ghost use Rattle.rules.specs.Bytes.{any};
ghost use Rattle.rules.specs.Lines.{serial_at, children_of, is_element_row, is_text_row};
ghost use Rattle.rules.specs.Passing.{passes};
ghost use Rattle.rules.specs.Refusal.{no_element, rows_of};
ghost use Rattle.rules.specs.Kinds.{kind_by};
ghost use Rattle.rules.specs.Layout.{row_size};
ghost use Rattle.rules.specs.Decode.{read_row};
ghost use Rattle.rules.specs.RowSorts.{row_number};
ghost use Rattle.layout.specs.Bodies.{width_of, record_at, attributes_in, tree_rows_in};
ghost use Rattle.form_index.specs.Reading.{attribute_in};
ghost use Rattle.store_laws.specs.Stores.{store_in};
ghost use Rattle.model.specs.Members.{all_members};
ghost use Rattle.model.specs.Steps.{runs};
ghost use Rattle.document_rows.specs.Finding.{Begins, ElementRowAt, ParentAt, RowOf, children_at, row_definition_kind, fits_at};
ghost use Rattle.document_rows.specs.Finding.{has_place, element_row_with, is_this, is_parent, seek, serial_in, serial_of_index, word};
ghost use Rattle.document_rows.specs.Coming.{coming};
ghost use Rattle.lookup.specs.Bodies.{rows_from};

mod nexts;
pub mod tree;

use layout::rows::Rows;
use nexts::Model;
use rules::{Kind, RowSort};
use tree::Children;

// Whether a row is the element row with a serial. The serial first: most rows have another.
fn is_element(row: &[u8], element: u32) -> bool
    ensures { result ≡ element_row_with element (read_row row.now).row }
{
    if layout::row_serial(row) != element {
        return false;
    }
    layout::row_sort_of(row) == Some(RowSort::Element)
}

/// The number of the element row with a serial.
pub fn element_at(rows: Rows, element: u32) -> Option<usize>
    ensures { Begins rows.entry.width rows.entry.bytes.now rows.entry.count result (seek (is_this element) (rows_from rows.entry.width rows.entry.bytes.now rows.entry.count 0)) }
{
    for i in 0..rows.count {
        if is_element(rows.row(i), element) {
            return Some(i);
        }
    }
    None
}

// Whether an element with a serial is among the rows.
fn has_child(mut children: Children, element: u32) -> bool
    ensures { result ≡ any (element_row_with element) (coming children.entry) }
{
    children.any(|row| is_element(row, element))
}

/// The number of the row right above the element row with a serial.
pub fn parent_at(rows: Rows, element: u32) -> Option<usize>
    ensures { Begins rows.entry.width rows.entry.bytes.now rows.entry.count result (seek (is_parent element) (rows_from rows.entry.width rows.entry.bytes.now rows.entry.count 0)) }
{
    for i in 0..rows.count {
        if has_child(
            Children::below(rows, i, u8::from(RowSort::Element)),
            element,
        ) {
            return Some(i);
        }
    }
    None
}

/// The serial of child number n.
pub fn nth_serial(mut children: Children, n: usize) -> Option<u32>
    ensures { result ≡ slice_get (map serial_in (coming children.entry)) n }
{
    let row = children.nth(n)?;
    Some(layout::row_serial(row))
}

/// The serial of the first child with an index.
pub fn indexed_serial(mut children: Children, index: usize) -> Option<u32>
    ensures { result ≡ serial_of_index index (coming children.entry) }
{
    let row = children.find(|row| layout::row_index(row) as usize == index)?;
    Some(layout::row_serial(row))
}

/// Whether a model takes the children, with a new one at a place and without the one with serial `skip`.
pub fn children_fit(part: &[u8], children: Children, place: usize, new: usize, skip: u32) -> bool
    requires { new < 65536 }
    ensures { result ≡ runs (all_members part.now) 0 (word place new skip (coming children.entry)) }
{
    let mut line = next_children::BLANK;
    next_children::fill(part, 64, &mut line);
    let model = Model { part, line: &line };
    nexts::takes(&model, children, place, new, skip)
}

// ---- in a store
/// The number of an element row in a store.
pub fn find_element(store: &[u8], element: u32) -> Option<usize>
    requires { passes store.now ≡ true }
    ensures { ElementRowAt store.now element result }
{
    element_at(layout::rows_in(store), element)
}

/// The definition index of row i.
pub fn row_definition(store: &[u8], i: usize) -> usize
    requires { i ≤ 4096 }
    ensures { result ≡ (read_row (record_at (row_size (width_of store.now)) i (tree_rows_in store.now))).row.index }
{
    layout::row_index(layout::rows_in(store).row(i)) as usize
}

// The rows of a sort right below row i.
fn children(store: &[u8], i: usize, sort: RowSort) -> Children<'_>
    requires { RowOf store.now i }
    ensures { coming result ≡ children_at store.now (row_number sort) i }
{
    Children::below(layout::rows_in(store), i, u8::from(sort))
}

// The serial of child number n of a sort, right below row i.
fn nth_at(store: &[u8], i: usize, sort: RowSort, n: usize) -> Option<u32>
    requires { RowOf store.now i }
    ensures { result ≡ slice_get (map serial_in (children_at store.now (row_number sort) i)) n }
{
    nth_serial(children(store, i, sort), n)
}

/// Whether the model of row i's definition takes its children, with a new one at a place and without one.
pub fn fits_at(store: &[u8], i: usize, place: usize, new: usize, skip: u32) -> bool
    requires { RowOf store.now i × (new < 65536) }
    ensures { result ≡ fits_at store.now i place new skip }
{
    let definitions = layout::definitions_of(store);
    let particles = layout::particles_of(store);
    let part = form_index::model_part(definitions, particles, row_definition(store, i));
    let elements = children(store, i, RowSort::Element);
    children_fit(part, elements, place, new, skip)
}

/// The code of the kind of row i's definition, whatever byte it is.
pub fn kind_at(store: &[u8], i: usize) -> u8
    requires { RowOf store.now i }
    ensures { result ≡ row_definition_kind store.now i }
{
    let definition = layout::definition_at(layout::definitions_of(store), row_definition(store, i));
    layout::definition_kind(definition)
}

/// The kind of row i's definition.
pub fn content_kind_at(store: &[u8], i: usize) -> Kind
    requires { RowOf store.now i }
    ensures { result ≡ kind_by (row_definition_kind store.now i) }
{
    Kind::from(kind_at(store, i))
}

/// The number of the row right above an element row in a store.
pub fn find_parent(store: &[u8], element: u32) -> Option<usize>
    requires { passes store.now ≡ true }
    ensures { ParentAt store.now element result }
{
    parent_at(layout::rows_in(store), element)
}

/// Whether row i has at least `child` element children.
pub fn has_place(store: &[u8], i: usize, child: usize) -> bool
    requires { RowOf store.now i }
    ensures { result ≡ has_place store.now i child }
{
    child == 0 || nth_at(store, i, RowSort::Element, child - 1).unwrap_or(0) != 0
}

/// The serial of the text row right below an element.
pub fn text_serial(store: &[u8], element: u32) -> Option<u32>
    requires { (passes store.now ≡ true) × (no_element element (store_in store.now) ≡ false) }
    ensures { unwrap_or result 0 ≡ serial_at 0 (children_of is_text_row element (rows_of (store_in store.now))) }
{
    nth_at(store, find_element(store, element)?, RowSort::Text, 0)
}

/// The serial of element child number `child` of an element.
pub fn child_serial(store: &[u8], parent: u32, child: u32) -> Option<u32>
    requires { (passes store.now ≡ true) × (no_element parent (store_in store.now) ≡ false) }
    ensures { unwrap_or result 0 ≡ serial_at child (children_of is_element_row parent (rows_of (store_in store.now))) }
{
    nth_at(
        store,
        find_element(store, parent)?,
        RowSort::Element,
        child as usize,
    )
}

// ---- attributes
/// The definition index of an attribute's owner.
pub fn owner_of(store: &[u8], attribute: usize) -> usize
    requires { attribute ≤ 64 }
    ensures { result ≡ (attribute_in (width_of store.now) (attributes_in store.now) attribute).owner }
{
    let w = layout::width_in(store);
    let attrs = layout::attributes_of(store);
    layout::attribute_owner_at(w, attrs, attribute)
}

/// The serial of the row of an attribute right below row i.
pub fn attribute_row_serial(store: &[u8], i: usize, attribute: usize) -> Option<u32>
    requires { RowOf store.now i }
    ensures { result ≡ serial_of_index attribute (children_at store.now 2 i) }
{
    indexed_serial(children(store, i, RowSort::Attribute), attribute)
}
