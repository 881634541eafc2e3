//! Whether a model takes children, one after the other.
ghost use Rattle.std.specs.Prelude.{◌≡◌, ◌∷◌, [], ◌<◌};
ghost use Rattle.rules.specs.Decode.{read_row};
ghost use Rattle.model.specs.Members.{all_members};
ghost use Rattle.model.specs.Steps.{steps, finishes, runs};
ghost use Rattle.next_children.specs.Line.{NextsLine};
ghost use Rattle.document_rows.specs.Finding.{new_name, kept_name, word, NamesStepped};
ghost use Rattle.document_rows.specs.Coming.{coming};

use crate::tree::Children;
use next_children::Line;

/// A model by its particles, and its line for the children below 64.
// Not form_table's Model, which has no particles but the bodies that they stand in, as a walk over rows seldom needs
// them: it would cut them out anew for each child that the line does not have, and reads each definition for it.
#[derive(Clone, Copy)]
pub(crate) struct Model<'a> {
    pub part: &'a [u8],
    pub line: &'a Line,
    pub ghost laid: { NextsLine 64 (all_members part.now) line.now },
}

impl Model<'_> {
    // Whether the child y may come after `last`: 0 is no child, else 1 and the child's index.
    fn follows(&self, last: usize, y: usize) -> bool
        ensures { result ≡ steps (all_members self.now.part.now) last y }
    {
        if (last <= 64) & (y < 64) {
            return sets::contains(self.line.after[last], y);
        }
        automaton::steps(self.part, last, y)
    }

    // Whether no child is owed after `last`.
    fn ends(&self, last: usize) -> bool
        ensures { result ≡ finishes (all_members self.now.part.now) last }
    {
        if last == 0 {
            return self.line.nothing;
        }
        if last <= 64 {
            return sets::contains(self.line.lasts, last - 1);
        }
        automaton::finishes(self.part, last)
    }
}

// What the last child is after the child y, if y may come.
fn step(model: &Model<'_>, last: usize, y: usize) -> Option<usize>
    requires { y < 4294967296 }
    ensures { NamesStepped (all_members model.now.part.now) last (y ∷ []) result }
{
    if model.follows(last, y) {
        return Some(y + 1);
    }
    None
}

// .. after the new child, if its place has come.
fn step_new(model: &Model<'_>, last: usize, place: usize, new: usize) -> Option<usize>
    requires { new < 65536 }
    ensures { NamesStepped (all_members model.now.part.now) last (new_name place new) result }
{
    if place == 1 {
        return step(model, last, new);
    }
    Some(last)
}

// .. after a child, unless it is left out.
fn step_child(model: &Model<'_>, last: usize, row: &[u8], skip: u32) -> Option<usize>
    ensures { NamesStepped (all_members model.now.part.now) last (kept_name skip (read_row row.now).row) result }
{
    if layout::row_serial(row) == skip {
        return Some(last);
    }
    step(model, last, layout::row_index(row) as usize)
}

// .. after all of them, with a new one at a place and without the one with serial `skip`.
fn step_all(
    model: &Model<'_>,
    children: Children,
    place: usize,
    new: usize,
    skip: u32,
) -> Option<usize>
    requires { new < 65536 }
    ensures { NamesStepped (all_members model.now.part.now) 0 (word place new skip (coming children.entry)) result }
{
    let mut last = 0;
    let mut left = place;
    for row in children {
        let fresh = step_new(model, last, left, new)?;
        last = step_child(model, fresh, row, skip)?;
        left = layout::minus(left, 1);
    }
    step_new(model, last, left, new)
}

/// Whether the model takes the children, with a new one at a place and without the one with serial `skip`.
pub(crate) fn takes(
    model: &Model<'_>,
    children: Children,
    place: usize,
    new: usize,
    skip: u32,
) -> bool
    requires { new < 65536 }
    ensures { result ≡ runs (all_members model.now.part.now) 0 (word place new skip (coming children.entry)) }
{
    match step_all(model, children, place, new, skip) {
        Some(last) => model.ends(last),
        None => false,
    }
}
