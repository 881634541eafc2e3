//! The store with one model edited: the ceilings of the form after the edit, and the rows by a plan.
#![tactic(auto)]

ghost use Rattle.std.specs.Prelude.{◌≡◌, true, length};
ghost use Rattle.rules.specs.WellFormed.{is_value, within_ceilings};
ghost use Rattle.rules.specs.Given.{AnswersBy};
ghost use Rattle.layout.specs.Bodies.{width_of};
ghost use Rattle.lookup.specs.Bodies.{bodies_of};
ghost use Rattle.store_writer.specs.Writing.{limited};
ghost use Rattle.planned_rows.specs.Planned.{planned_in};
ghost use Rattle.planned_rows.specs.Walking.{Sized};
ghost use Rattle.store_laws.specs.Forms.{bare_form};
ghost use Rattle.model_form.specs.Placed.{form_after};

use model_form::placed::PlacedEdit;
use row_walk::Plan;
use rules::Refusal;

// Whether the form after an edit keeps within the ceilings, where it has p particles.
fn keeps_within(change: &PlacedEdit, p: usize) -> bool
    requires { p ≡ length (form_after change.now).particles }
    ensures { result ≡ within_ceilings (bare_form (form_after change.now)) }
{
    if p > layout::MAX_PARTICLES {
        return false;
    }
    let part = model_places::own_part(change.store, change.owner);
    depth_check::is_within(part, change.edit, change.place)
}

/// The store after a plan and an edit of a model.
pub fn edit_model(
    change: &PlacedEdit,
    plan: Plan,
    text: &[u8],
    out: &mut [u8],
) -> Result<usize, Refusal>
    requires { (is_value (width_of change.now.store.now) text.now ≡ true) × Sized plan }
    ensures { AnswersBy
        (limited (length out.old)
        (planned_in (form_after change.now) plan text.now (bodies_of change.now.store.now)))
        out.old result out.new }
{
    let store = change.store;
    let p = model_form::all_after(store, change.owner, change.edit);
    if !keeps_within(change, p) {
        return Err(Refusal::Ceiling);
    }
    let d = layout::definition_count(store);
    let a = layout::attribute_count(store);
    // Of the largest form, as there is no heap.
    let mut form = [0; layout::MOST_FORM];
    let end = change.put_edited(&mut form);
    store_writer::edit_form(store, &form[..end], d, p, a, plan, text, out)
}
