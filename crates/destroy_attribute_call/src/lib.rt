//! Change 10: an attribute destroyed. The call is the check, the first refusal
//! that applies, the new form and the plan of the change.
#![tactic(auto)]

ghost use Rattle.std.specs.Prelude.{[], length};
ghost use Rattle.rules.specs.Change.{destroy_attribute};
ghost use Rattle.rules.specs.Outcome.{outcome};
ghost use Rattle.rules.specs.Given.{AnswersBy};
ghost use Rattle.lookup.specs.Bodies.{bodies_of};
ghost use Rattle.store_writer.specs.Writing.{limited};
ghost use Rattle.attribute_writer.specs.Attributes.{Droppable};
ghost use Rattle.destroy_attribute_call.specs.Dropped.{dropped};

use rules::Refusal;

// The store without an attribute and its rows.
fn write_dropped(store: &[u8], attribute: usize, out: &mut [u8]) -> Result<usize, Refusal>
    requires { Droppable store.now attribute }
    ensures { AnswersBy (limited (length out.old) (dropped attribute [] (bodies_of store.now))) out.old result out.new }
{
    let d = layout::definition_count(store);
    let p = layout::particle_count(store);
    let a = layout::attribute_count(store);
    let plan = attribute_plans::destroying_plan(store, attribute);
    // Of the largest form, as there is no heap.
    let mut form = [0; layout::MOST_FORM];
    let length = attribute_writer::put_dropped(store, attribute, &mut form);
    store_writer::edit_form(store, &form[..length], d, p, a - 1, plan, &store[..0], out)
}

/// 10: destroys an attribute, with its rows.
pub fn destroy_attribute(store: &[u8], attribute: u32, out: &mut [u8]) -> Result<usize, Refusal>
    ensures { AnswersBy (outcome (destroy_attribute attribute) store.now (length out.old)) out.old result out.new }
{
    if !store_check::passes(store) {
        return Err(Refusal::BadStore);
    }
    attribute_refusals::destroy_attribute_refusal(store, attribute)?;
    write_dropped(store, attribute as usize, out)
}
