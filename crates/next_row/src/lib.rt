//! Whether a row may come next at a level, and whether a level may end.
#![tactic(auto)]

ghost use Rattle.std.specs.Prelude.{◌≡◌, ◌<◌, eqb};
ghost use Rattle.rules.specs.Decode.{read_row};
ghost use Rattle.rules.specs.RowSorts.{row_number};
ghost use Rattle.form_index.specs.Reading.{index_form_of};
ghost use Rattle.form_table.specs.Table.{Needed};
ghost use Rattle.next_row.specs.Judge.{child_may, children_end, attribute_may, row_may, rows_end, may, ends};

use form_table::FormTable;
use rules::{Kind, RowSort};

/// An element that is open: its definition, 1 and the first attribute that may still come (0: none may), and 1 and its
/// last child's index (0: no child yet).
// Bytes and not Options: they are those of the state (paper 02, W3; `level_at` of row_state), and `attribute_may`,
// `freed`, `steps` and `finishes` speak of these numbers.
#[derive(Clone, Copy)]
pub struct OpenElement {
    pub index: u8,
    pub seen: u8,
    pub last: u8,
}

/// A place that is open: that of the documents, that of the rows below an element, or that below an attribute or a
/// text, where nothing stands (the code opens none there; the automaton of the proofs does).
#[derive(Clone, Copy)]
pub enum Level {
    Documents,
    Element(OpenElement),
    Nothing,
}

/// Whether a row is of a sort.
#[tactic(auto, using(rules::proofs::RowSortLaws::sort_read))]
pub fn is_of(row: &[u8], sort: RowSort) -> bool
    ensures { result ≡ eqb (read_row row.now).row.sort (row_number sort) }
{
    layout::row_sort_of(row) == Some(sort)
}

// ---- children
// Whether a row may come next after the child `last` of definition i.
fn child_may(t: &FormTable<'_>, i: usize, last: usize, row: &[u8]) -> bool
    requires { i < t.now.form.definition_count }
    ensures { let f = index_form_of t.now.form in let r = (read_row row.now).row in result ≡ child_may (f.kind i) (f.model i) last r.sort r.index }
{
    let index = layout::row_index(row) as usize;
    match form_index::content_kind(t.form.definitions, i) {
        Kind::Empty => false,
        Kind::Pcdata => is_of(row, RowSort::Text) & (last == 0),
        Kind::Complex => is_of(row, RowSort::Element) & t.model(i).follows(last, index),
    }
}

// Whether the children of definition i may end with `last`.
fn children_end(t: &FormTable<'_>, i: usize, last: usize) -> bool
    requires { i < t.now.form.definition_count }
    ensures { let f = index_form_of t.now.form in result ≡ children_end (f.kind i) (f.model i) last }
{
    match form_index::content_kind(t.form.definitions, i) {
        Kind::Empty => true,
        Kind::Pcdata => last != 0,
        Kind::Complex => t.model(i).ends(last),
    }
}

// ---- attributes
// Whether an attribute's row may come next below definition i, which needs `needed`.
fn attribute_may(t: &FormTable<'_>, needed: u64, i: usize, seen: usize, row: &[u8]) -> bool
    requires { Needed t.now.form i needed }
    ensures { result ≡ attribute_may (index_form_of t.now.form) i seen (read_row row.now).row }
{
    let j = layout::row_index(row) as usize;
    if seen == 0 {
        return false;
    }
    if j < seen - 1 {
        return false;
    }
    if j >= t.form.attribute_count {
        return false;
    }
    let w = t.form.width;
    let attrs = t.form.attributes;
    let owner = layout::attribute_owner(layout::attribute_at(w, attrs, j));
    let v = layout::row_value(row);
    (owner == i) & (form_index::value_may(w, attrs, j, v) & form_table::spares(needed, seen - 1, j))
}

// ---- rows
// Whether a row may come next below an element.
fn row_may(t: &FormTable<'_>, e: OpenElement, row: &[u8]) -> bool
    requires { e.index < t.now.form.definition_count }
    ensures { result ≡ row_may (index_form_of t.now.form) (eqb (read_row row.now).row.sort 2) e (read_row row.now).row }
{
    let i = e.index as usize;
    let seen = e.seen as usize;
    let needed = t.needed(i);
    if is_of(row, RowSort::Attribute) {
        return attribute_may(t, needed, i, seen, row);
    }
    if !form_table::is_freed(needed, t.form.attribute_count, seen) {
        return false;
    }
    child_may(t, i, e.last as usize, row)
}

// Whether nothing more is owed below an element.
fn rows_end(t: &FormTable<'_>, e: OpenElement) -> bool
    requires { e.index < t.now.form.definition_count }
    ensures { result ≡ rows_end (index_form_of t.now.form) e }
{
    let i = e.index as usize;
    if !form_table::is_freed(t.needed(i), t.form.attribute_count, e.seen as usize) {
        return false;
    }
    children_end(t, i, e.last as usize)
}

/// Whether a row may come next at a level.
pub fn may_come(t: &FormTable<'_>, l: Level, row: &[u8]) -> bool
    ensures { result ≡ may (index_form_of t.now.form) l (read_row row.now).row }
{
    match l {
        Level::Documents => is_of(row, RowSort::Element),
        Level::Element(e) => (e.index as usize) < t.form.definition_count && row_may(t, e, row),
        Level::Nothing => false,
    }
}

/// Whether nothing more is owed at a level.
pub fn may_end(t: &FormTable<'_>, l: Level) -> bool
    ensures { result ≡ ends (index_form_of t.now.form) l }
{
    match l {
        Level::Documents => true,
        Level::Element(e) => (e.index as usize) < t.form.definition_count && rows_end(t, e),
        Level::Nothing => true,
    }
}
