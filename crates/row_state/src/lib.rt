//! The state of the walk over the tree rows, which is bytes: what it says of a depth, and the state after a row.
#![tactic(auto)]

ghost use Rattle.std.specs.Prelude.{◌≡◌, ◌<◌, ◌≤◌, length};
ghost use Rattle.rules.specs.Decode.{read_row};
ghost use Rattle.row_state.specs.State.{seen_at, level_at, with_attribute, with_text, with_element, stepped, RoomFor};

use next_row::{Level, OpenElement};
use rules::RowSort;

/// The bytes of the state; `specs/State.antt` says what stands where.
// Bytes and no struct: paper 02, W3. The caller keeps the state between two calls, and the theorem `OnePass` says of it
// that it is 130 bytes.
pub const STATE: usize = 130;

// ---- read

// Of the k-th open element: 1 and the first attribute that may still come; 0 where none may.
fn seen_at(state: &[u8; STATE], k: usize) -> u8
    requires { k ≤ 64 }
    ensures { result ≡ seen_at state.now k }
{
    let elements = state[0];
    let seen = state[1];
    if k as u8 == elements {
        return seen;
    }
    0
}

/// The place of the rows of depth k: the documents, or the rows below the k-th open element.
pub fn level_at(state: &[u8; STATE], k: usize) -> Level
    requires { k ≤ 64 }
    ensures { result ≡ level_at state.now k }
{
    if k == 0 {
        return Level::Documents;
    }
    Level::Element(OpenElement {
        index: state[2 * k],
        seen: seen_at(state, k),
        last: state[2 * k + 1],
    })
}

// ---- set

// After an attribute's row of depth d.
fn take_attribute(state: &mut [u8; STATE], d: u8, index: u8)
    requires { index < 64 }
    ensures { state.new ≡ with_attribute state.old d index }
{
    state[1] = index + 2;
    state[0] = d;
}

// After a text's.
fn take_text(state: &mut [u8; STATE], d: u8, index: u8)
    requires { (d ≤ 64) × (index < 64) }
    ensures { state.new ≡ with_text state.old d index }
{
    state[2 * (d as usize) + 1] = index + 1;
    state[1] = 0;
    state[0] = d;
}

// After an element's, which is open from here on.
fn take_element(state: &mut [u8; STATE], d: u8, index: u8)
    requires { (d < 64) × (index < 64) }
    ensures { state.new ≡ with_element state.old d index }
{
    let k = d as usize + 1;
    state[2 * (d as usize) + 1] = index + 1;
    state[2 * k] = index;
    state[2 * k + 1] = 0;
    state[1] = 1;
    state[0] = d + 1;
}

/// After a row.
pub fn take_row(state: &mut [u8; STATE], row: &[u8])
    requires { RoomFor (read_row row.now) }
    ensures { state.new ≡ stepped state.old (read_row row.now) }
{
    let d = layout::row_depth(row);
    let index = layout::row_index(row) as u8;
    if next_row::is_of(row, RowSort::Element) {
        take_element(state, d, index);
        return;
    }
    if next_row::is_of(row, RowSort::Attribute) {
        take_attribute(state, d, index);
        return;
    }
    take_text(state, d, index);
}
