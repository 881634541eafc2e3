//! Change 15: the row of an attribute destroyed. The call is the check, the first refusal that applies, and the plan of
//! the change.
#![tactic(auto)]

ghost use Rattle.std.specs.Prelude.{length};
ghost use Rattle.rules.specs.Change.{destroy_attribute_row};
ghost use Rattle.rules.specs.Outcome.{outcome};
ghost use Rattle.rules.specs.Given.{AnswersBy};

use rules::Refusal;

/// 15: destroys the row of an attribute of an element.
// Alike in three calls: one for all would take refusal and plan as closures, with contracts as long as this text.
pub fn destroy_attribute_row(
    store: &[u8],
    element: u32,
    attribute: u32,
    out: &mut [u8],
) -> Result<usize, Refusal>
    ensures { AnswersBy (outcome (destroy_attribute_row element attribute) store.now (length out.old)) out.old result out.new }
{
    if !store_check::passes(store) {
        return Err(Refusal::BadStore);
    }
    attribute_row_refusals::destroy_attribute_row_refusal(store, element, attribute)?;
    let plan = document_plans::destroying_attribute_row(element, attribute);
    store_writer::edit(store, plan, &store[..0], out)
}
