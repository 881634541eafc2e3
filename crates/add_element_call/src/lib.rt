//! Change 12: an element added. The call is the check, the first refusal that applies, and the plan of the change.
#![tactic(auto)]

ghost use Rattle.std.specs.Prelude.{length};
ghost use Rattle.rules.specs.Change.{add_element};
ghost use Rattle.rules.specs.Outcome.{outcome};
ghost use Rattle.rules.specs.Given.{AnswersBy};

use rules::Refusal;

/// 12: adds the filling of a definition as child number `child` of an element.
pub fn add_element(
    store: &[u8],
    parent: u32,
    child: u32,
    definition: u32,
    text: &[u8],
    out: &mut [u8],
) -> Result<usize, Refusal>
    ensures { AnswersBy (outcome (add_element parent child definition text.now) store.now (length out.old))
        out.old result out.new }
{
    if !store_check::passes(store) {
        return Err(Refusal::BadStore);
    }
    document_refusals::add_element_refusal(store, parent, child, definition, text)?;
    let plan = document_plans::adding_element(store, parent, child, definition);
    store_writer::edit(store, plan, text, out)
}
