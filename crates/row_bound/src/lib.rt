//! How many rows the walk with a plan adds at most: the rows of one filling at each place that may be filled.
#![tactic(auto)]

ghost use Rattle.std.specs.Prelude.{◌≡◌, ◌+◌, ◌*◌, ◌≤◌, length};
ghost use Rattle.rules.specs.Layout.{row_size};
ghost use Rattle.rules.specs.Decode.{read_row, read_many};
ghost use Rattle.layout.specs.Bodies.{Width};
ghost use Rattle.row_walk.specs.Walk.{matches, walked, at_first};
ghost use Rattle.walk_writer.specs.Step.{plan_filling, Ready, WalkRows};
ghost use Rattle.filling.specs.Parts.{fill_with, Indexed};
ghost use Rattle.row_bound.specs.Bound.{matching_in, places_in, counted_to, Bounds};

use filling::Filling;
use layout::Form;
use row_walk::{Plan, Which};
use row_writer::Cursor;
use store_limits::ROWS_PAST_CEILING;

/// The rows of one filling, counted up to one past the ceiling, where some may be put in; and the most rows of all of
/// them.
#[derive(Clone, Copy)]
pub struct Most {
    pub one: Option<usize>,
    pub all: usize,
}

// Whether a row is one of some rows.
fn is_one(row: &[u8], which: Which) -> bool
    ensures { result ≡ matches which (read_row row.now).row }
{
    row_walk::matches(which, walk_writer::read_head(row))
}

// How many of `count` rows are some of them.
fn matching(w: usize, rows: &[u8], count: usize, which: Which) -> usize
    requires { Width w × (count ≤ 4096) }
    ensures { (result ≡ matching_in which (read_many read_row (row_size w) count rows.now)) × (result ≤ 4096) }
{
    (0..count)
        .filter(|&i| is_one(layout::row_at(w, rows, i), which))
        .count()
}

// The places that may be filled below the rows `above`.
fn places(w: usize, rows: &[u8], count: usize, above: Which) -> usize
    requires { Width w × (row_size w * count ≤ length rows.now) × (count ≤ 4096) }
    ensures { (result ≡ places_in above (read_many read_row (row_size w) count rows.now)) × (result ≤ 4097) }
{
    matching(w, rows, count, above) + usize::from(above == Which::Ground)
}

// The rows of a filling, counted up to one past the ceiling.
fn filling_rows(form: &Form<'_>, what: Filling, text: &[u8]) -> usize
    requires { Indexed what × Width form.now.width × (length text.now ≤ form.now.width) × (form.now.attribute_count ≤ 64)
        × (form.now.definition_count ≤ 64) }
    ensures { (result ≡ counted_to (fill_with form.now what text.now 0)) × (result ≤ 4097) }
{
    let mut clipped = [0; 1];
    let mut c = Cursor {
        at: 0,
        left: ROWS_PAST_CEILING,
        serial: 0,
    };
    filling::put_filling(what, form, text, 0, &mut c, &mut clipped);
    ROWS_PAST_CEILING - c.left
}

/// The most rows that the walk over `count` rows of a store with a form adds by a plan.
pub fn most_added(form: &Form<'_>, rows: &[u8], count: usize, plan: Plan, text: &[u8]) -> Most
    requires { Ready form.now text.now plan × WalkRows form.now.width count rows.now
        × (row_size form.now.width * count ≤ length rows.now) × (count ≤ 4096) }
    ensures { Bounds
        (walked plan text.now (plan_filling form.now plan text.now) (at_first plan)
        (read_many read_row (row_size form.now.width) count rows.now))
        (plan_filling form.now plan text.now 0)
        count result }
{
    if !plan.fills {
        return Most { one: None, all: 0 };
    }
    let one = filling_rows(form, plan.filling, text);
    if one == 0 {
        return Most { one: None, all: 0 };
    }
    let above = plan.above;
    let all = one * places(form.width, rows, count, above);
    Most {
        one: Some(one),
        all,
    }
}
