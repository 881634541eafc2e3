//! The value of the attribute or text row with a serial, as a part of the store.
#![tactic(auto)]

ghost use Rattle.std.specs.Prelude.{◌≡◌, ◌+◌, ◌<◌, length};
ghost use Rattle.lookup.specs.Bodies.{RowsBegin, RowPlace, from_rows, row_part};
ghost use Rattle.rules.specs.Given.{number_given};
ghost use Rattle.lookup.specs.Finding.{LooksBy, Hands, start_given, size_given, part_given, found_on, found_row_at};

use rules::{Refusal, RowSort};

/// Where the tree rows begin.
pub fn row_start(store: &[u8]) -> usize
    ensures { RowsBegin store.now result }
{
    layout::rows_start(layout::shape_of(store))
}

/// The bytes from the tree rows on.
pub fn from_rows(store: &[u8]) -> &[u8]
    ensures { result.now ≡ from_rows store.now }
{
    let start = row_start(store);
    layout::window(store, start, store.len())
}

// Where tree row i begins, counted from 0.
fn row_place(store: &[u8], i: usize) -> usize
    requires { i < 4294967296 }
    ensures { RowPlace store.now i result }
{
    let w = layout::width_in(store);
    let before = layout::times(layout::row_size(w), i);
    row_start(store) + before
}

// The bytes of tree row i, counted from 0.
fn row(store: &[u8], i: usize) -> &[u8]
    requires { i < 4294967296 }
    ensures { result.now ≡ row_part store.now i }
{
    let w = layout::width_in(store);
    let start = row_place(store, i);
    layout::window(store, start, layout::row_size(w))
}

/// Where a part of a store begins, and how long it is.
#[derive(Clone, Copy, PartialEq, Eq)]
pub struct Part {
    pub start: usize,
    pub length: usize,
}

/// A look-up's answer: 0, and where the value stands in the store; or a refusal's number, 0 and 0. Numbers: C gets them
/// from `formstore_look_up` (include/formstore.h).
#[repr(C)]
#[derive(Clone, Copy, PartialEq, Eq)]
pub struct Found {
    pub number: u32,
    pub start: usize,
    pub length: usize,
}

impl From<Result<Part, Refusal>> for Found {
    ghost from_gives = { λ given found. (found.number ≡ number_given given) × (found.start ≡ start_given given) × (found.length ≡ size_given given) };

    fn from(given: Result<Part, Refusal>) -> Found {
        match given {
            Ok(part) => Found {
                number: 0,
                start: part.start,
                length: part.length,
            },
            Err(refusal) => Found {
                number: u32::from(refusal),
                start: 0,
                length: 0,
            },
        }
    }
}

// Row i has the serial. An element has no value.
fn found_at(store: &[u8], i: usize) -> Result<Part, Refusal>
    requires { i < 4294967296 }
    ensures { LooksBy (found_row_at store.now i) result }
{
    let bytes = row(store, i);
    if layout::row_sort_of(bytes) == Some(RowSort::Element) {
        return Err(Refusal::NoRow);
    }
    let value = layout::row_value(bytes);
    let start = layout::value_place(row_place(store, i));
    Ok(Part {
        start,
        length: value.len(),
    })
}

/// Finds the row with a serial in one walk over the tree rows.
pub fn find_value(store: &[u8], serial: u32) -> Result<Part, Refusal>
    ensures { LooksBy (found_on store.now serial) result }
{
    let w = layout::width_in(store);
    let rows = from_rows(store);
    let count = layout::row_count(store);
    for i in 0..count {
        if layout::row_serial(layout::row_at(w, rows, i)) == serial {
            return found_at(store, i);
        }
    }
    Err(Refusal::NoRow)
}

/// The value of the attribute or text row with a serial, a part of the store.
pub fn value_of(store: &[u8], serial: u32) -> Result<&[u8], Refusal>
    ensures { Hands (found_on store.now serial) store.now (part_given result) (number_given result) }
{
    let part = find_value(store, serial)?;
    Ok(layout::window(store, part.start, part.length))
}
