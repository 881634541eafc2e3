//! The levels that are open in a state of the walk over the tree rows: whether they are owed nothing.
#![tactic(auto)]

ghost use Rattle.std.specs.Prelude.{◌≡◌, ◌≤◌};
ghost use Rattle.form_index.specs.Reading.{index_form_of};
ghost use Rattle.next_row.specs.Judge.{judge};
ghost use Rattle.row_state.specs.State.{open_elements, level_at};
ghost use Rattle.open_levels.specs.Open.{open_end, end};

use form_table::FormTable;
use row_state::STATE;

// Whether the rows of depth k are owed nothing.
fn level_ends(t: &FormTable<'_>, state: &[u8; STATE], k: usize) -> bool
    requires { k ≤ 64 }
    ensures { result ≡ (judge (index_form_of t.now.form)).ends (level_at state.now k) }
{
    next_row::may_end(t, row_state::level_at(state, k))
}

/// Whether of the open levels those from `keep` on are owed nothing.
// The walk asks it for each row, so that it is to be compiled into the walk although the end asks it too.
#[inline(always)]
pub fn levels_end(t: &FormTable<'_>, state: &[u8; STATE], keep: usize) -> bool
    requires { open_elements state.now ≤ 64 }
    ensures { result ≡ open_end (index_form_of t.now.form) state.now keep }
{
    for k in keep..state[0] as usize + 1 {
        if !level_ends(t, state, k) {
            return false;
        }
    }
    true
}

/// Whether the rows may end: no level that is open is owed anything.
pub fn end(t: &FormTable<'_>, state: &[u8; STATE]) -> bool
    requires { open_elements state.now ≤ 64 }
    ensures { result ≡ end (index_form_of t.now.form) state.now }
{
    levels_end(t, state, 0)
}
