//! The form after an edit of one model: how many particles it has, and its bytes.
#![tactic(auto)]

ghost use Rattle.std.specs.Prelude.{◌≡◌, ◌+◌, ◌-◌, ◌<◌, ◌≤◌};
ghost use Rattle.rules.specs.Decode.{particle_count};
ghost use Rattle.model_writer.specs.PartAfter.{length_after};
ghost use Rattle.model_writer.specs.Writing.{edit_of};
ghost use Rattle.model_form.specs.Editing.{model_length};

pub mod placed;

use model_writer::Edit;

// How many particles a model of n has after an edit.
fn length_after(edit: Edit, n: usize) -> usize
    requires { n < 4294967296 }
    ensures { result ≡ length_after (edit_of edit) n }
{
    match edit {
        Edit::Insert(_, _) => n + 1,
        Edit::Remove => n.saturating_sub(1),
        Edit::Quantify(_) => n,
        Edit::Convert(_, _) => n + 1,
        Edit::Flatten => n.saturating_sub(1),
    }
}

// How many particles definition `owner` has after an edit.
fn own_after(store: &[u8], owner: usize, edit: Edit) -> usize
    requires { owner ≤ 256 }
    ensures { result ≡ length_after (edit_of edit) (model_length store.now owner) }
{
    let definitions = layout::definitions_of(store);
    length_after(edit, form_index::model_length(definitions, owner))
}

/// How many particles a form has after an edit of a model.
pub fn all_after(store: &[u8], owner: usize, edit: Edit) -> usize
    requires { (owner ≤ 256) × (model_length store.now owner ≤ particle_count store.now) }
    ensures { result ≡ particle_count store.now - model_length store.now owner + length_after (edit_of edit) (model_length store.now owner) }
{
    let definitions = layout::definitions_of(store);
    let own = form_index::model_length(definitions, owner);
    layout::particle_count(store) - own + length_after(edit, own)
}
