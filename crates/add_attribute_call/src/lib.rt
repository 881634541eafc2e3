//! Change 9: an attribute added. The call is the check, the first refusal
//! that applies, the new form and the plan of the change.
#![tactic(auto)]

ghost use Rattle.std.specs.Prelude.{length};
ghost use Rattle.rules.specs.Layout.{sort_code};
ghost use Rattle.rules.specs.Change.{add_attribute};
ghost use Rattle.rules.specs.Outcome.{outcome};
ghost use Rattle.rules.specs.Given.{AnswersBy};
ghost use Rattle.lookup.specs.Bodies.{bodies_of};
ghost use Rattle.store_writer.specs.Writing.{limited};
ghost use Rattle.attribute_writer.specs.Attributes.{Addable};
ghost use Rattle.add_attribute_call.specs.Added.{added};

use rules::{AttributeSort, Refusal};

// The store with a new attribute, the last of its owner.
fn write_added(
    store: &[u8],
    owner: u32,
    name: &[u8],
    sort: AttributeSort,
    value: &[u8],
    out: &mut [u8],
) -> Result<usize, Refusal>
    requires { Addable store.now owner name.now (sort_code sort) value.now }
    ensures { AnswersBy (limited (length out.old) (added owner name.now (sort_code sort) value.now (bodies_of store.now)))
        out.old result out.new }
{
    let d = layout::definition_count(store);
    let p = layout::particle_count(store);
    let a = layout::attribute_count(store);
    if store_limits::attributes_full(a) {
        return Err(Refusal::Ceiling);
    }
    let i = attribute_form::attributes_to(store, owner);
    let plan = attribute_plans::adding_plan(store, owner, i, sort);
    // Of the largest form, as there is no heap.
    let mut form = [0; layout::MOST_FORM];
    let length = attribute_writer::put_added(store, i, owner, name, sort, value, &mut form);
    store_writer::edit_form(store, &form[..length], d, p, a + 1, plan, value, out)
}

/// 9: adds an attribute to a definition. REQUIRED: a row of it to each instance.
// `sort` is a number, as the C interface gives it: each that is no sort's is refused.
pub fn add_attribute(
    store: &[u8],
    owner: u32,
    name: &[u8],
    sort: u32,
    value: &[u8],
    out: &mut [u8],
) -> Result<usize, Refusal>
    ensures { AnswersBy (outcome (add_attribute owner name.now sort value.now) store.now (length out.old))
        out.old result out.new }
{
    if !store_check::passes(store) {
        return Err(Refusal::BadStore);
    }
    attribute_refusals::add_attribute_refusal(store, owner, name, sort, value)?;
    write_added(
        store,
        owner,
        name,
        AttributeSort::from(sort as u8),
        value,
        out,
    )
}
