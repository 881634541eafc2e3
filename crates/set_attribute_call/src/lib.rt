//! Change 14: the row of an attribute set. The call is the check, the first refusal that applies, and the plan of the
//! change.
#![tactic(auto)]

ghost use Rattle.std.specs.Prelude.{length};
ghost use Rattle.rules.specs.Change.{set_attribute};
ghost use Rattle.rules.specs.Outcome.{outcome};
ghost use Rattle.rules.specs.Given.{AnswersBy};

use rules::Refusal;

/// 14: sets an attribute of an element; a row that is there keeps its serial.
pub fn set_attribute(
    store: &[u8],
    element: u32,
    attribute: u32,
    value: &[u8],
    out: &mut [u8],
) -> Result<usize, Refusal>
    ensures { AnswersBy (outcome (set_attribute element attribute value.now) store.now (length out.old)) out.old
        result out.new }
{
    if !store_check::passes(store) {
        return Err(Refusal::BadStore);
    }
    attribute_row_refusals::set_attribute_refusal(store, element, attribute, value)?;
    let plan = document_plans::setting_attribute(store, element, attribute);
    store_writer::edit(store, plan, value, out)
}
