//! One walk over the tree rows, for their fields and serials, their depths, and whether they are those of documents
//! that conform (paper 02, W3): by the bytes before the tree body, from a state on, over any number of rows.
#![tactic(auto)]

ghost use Rattle.std.specs.Prelude.{◌≡◌, ◌*◌, ◌≤◌, length};
ghost use Rattle.rules.specs.Layout.{row_size};
ghost use Rattle.layout.specs.Bodies.{width_of};
ghost use Rattle.form_index.specs.Reading.{by_index};
ghost use Rattle.form_table.specs.Table.{TableOf};
ghost use Rattle.row_state.specs.State.{open_elements, StateFits};
ghost use Rattle.open_levels.specs.Open.{end};
ghost use Rattle.row_step.specs.Steps.{before_by};
ghost use Rattle.row_check.specs.Verdict.{answer_from, verdict};
ghost use Rattle.row_check.specs.Walking.{before_with, FewIn, WalkMade};

use form_table::{Entry, FormTable};
use row_state::STATE;

// The steps of `count` rows. Nothing else calls `row_step::step`, so that it is compiled into this loop, for the check
// and for the reading of a text.
fn steps(t: &FormTable<'_>, next: usize, state: &mut [u8; STATE], rows: &[u8], count: usize) -> bool
    requires { StateFits state.old × (row_size t.now.form.width * count ≤ length rows.now) }
    ensures { WalkMade (before_by next t.now.form) state.old count rows.now result state.new }
{
    let size = layout::row_size(t.form.width);
    for row in rows[..size * count].chunks_exact(size) {
        if !row_step::step(t, next, state, row) {
            return false;
        }
    }
    true
}

// ---- by the bytes before the tree body
// What a caller of the walk keeps between two calls are bytes (paper 02, W3): so these take `before` and the table, and
// no form that is lent. `rows` may hold more than `count` rows: a slice of their length would ask more.

/// The table of the form that they say.
pub fn lay_table(before: &[u8], table: &mut [Entry])
    requires { FewIn before.now × (64 ≤ length table.old) }
    ensures { TableOf before.now table.new }
{
    form_table::fill_table(&layout::form_of(before), table);
}

/// The walk over `count` rows from a state on, with a next serial: whether each row may come, and the state after them.
pub fn walk_rows(
    before: &[u8],
    next: usize,
    table: &[Entry],
    state: &mut [u8; STATE],
    rows: &[u8],
    count: usize,
) -> bool
    requires { FewIn before.now × TableOf before.now table.now × StateFits state.old × (row_size (width_of before.now) * count ≤ length rows.now) }
    ensures { WalkMade (before_with next before.now) state.old count rows.now result state.new }
{
    let t = FormTable {
        form: layout::form_of(before),
        entries: table,
    };
    steps(&t, next, state, rows, count)
}

/// Whether the rows may end after a state.
pub fn walk_ends(before: &[u8], table: &[Entry], state: &[u8; STATE]) -> bool
    requires { FewIn before.now × TableOf before.now table.now × (open_elements state.now ≤ 64) }
    ensures { result ≡ end (by_index before.now) state.now }
{
    let t = FormTable {
        form: layout::form_of(before),
        entries: table,
    };
    open_levels::end(&t, state)
}

/// The walk's answer from a state on: whether the `count` rows left may come, and end.
pub fn answer_from(
    before: &[u8],
    next: usize,
    state: &mut [u8; STATE],
    rows: &[u8],
    count: usize,
) -> bool
    requires { FewIn before.now × StateFits state.old × (row_size (width_of before.now) * count ≤ length rows.now) }
    ensures { result ≡ answer_from (before_with next before.now) state.old count rows.now }
{
    let mut table = [form_table::BLANK; form_table::TABLE];
    lay_table(before, &mut table);
    if !walk_rows(before, next, &table, state, rows, count) {
        return false;
    }
    walk_ends(before, &table, state)
}

/// The whole walk, from the start.
pub fn rows_pass(before: &[u8], next: usize, rows: &[u8], count: usize) -> bool
    requires { FewIn before.now × (row_size (width_of before.now) * count ≤ length rows.now) }
    ensures { result ≡ verdict (before_with next before.now) count rows.now }
{
    let mut state = [0; STATE];
    answer_from(before, next, &mut state, rows, count)
}
