//! The step of the walk over the tree rows: whether a row may come, and the state after it.
#![tactic(auto)]

ghost use Rattle.std.specs.Prelude.{◌≡◌, ◌&&◌};
ghost use Rattle.rules.specs.Decode.{read_row};
ghost use Rattle.records.specs.Records.{row_fits, serial_fits};
ghost use Rattle.form_index.specs.Reading.{index_form_of};
ghost use Rattle.next_row.specs.Judge.{judge};
ghost use Rattle.row_state.specs.State.{StateFits};
ghost use Rattle.row_step.specs.Steps.{element_fits, before_by, StepMade};

use form_table::FormTable;
use next_row::Level;
use row_state::STATE;
use rules::RowSort;

// Whether a row's serial is from 1 and below the next one, and an element's definition is one of n and fewer than 64
// elements stand around it.
fn ranges_fit(n: usize, next: usize, row: &[u8]) -> bool
    ensures { result ≡ (serial_fits next (read_row row.now).row.serial && element_fits n (read_row row.now)) }
{
    let serial = layout::row_serial(row) as usize;
    if serial < 1 {
        return false;
    }
    if next <= serial {
        return false;
    }
    if !next_row::is_of(row, RowSort::Element) {
        return true;
    }
    let index = layout::row_index(row) as usize;
    (layout::row_depth(row) < 64) & (index < n)
}

// Whether a row's fields fit and it may come next at a level.
fn row_passes(t: &FormTable<'_>, l: Level, row: &[u8]) -> bool
    ensures { result
        ≡ (row_fits t.now.form.width row.now && (judge (index_form_of t.now.form)).may l (read_row row.now).row) }
{
    records::row_fits(t.form.width, row) && next_row::may_come(t, l, row)
}

/// A row closes the elements deeper than itself, comes next at its own depth, and is open itself where it is an
/// element: whether it may, and the state after it.
pub fn step(t: &FormTable<'_>, next: usize, state: &mut [u8; STATE], row: &[u8]) -> bool
    requires { StateFits state.old }
    ensures { StepMade (before_by next t.now.form) state.old row.now result state.new }
{
    let d = layout::row_depth(row) as usize;
    let elements = state[0];
    let levels = elements as usize + 1;
    if levels <= d {
        return false;
    }
    if !ranges_fit(t.form.definition_count, next, row) {
        return false;
    }
    if !open_levels::levels_end(t, state, d + 1) {
        return false;
    }
    let l = row_state::level_at(state, d);
    if !row_passes(t, l, row) {
        return false;
    }
    row_state::take_row(state, row);
    true
}
