//! Change 11: a document added. The call is the check, the first refusal that applies, and the plan of the change.
#![tactic(auto)]

ghost use Rattle.std.specs.Prelude.{length};
ghost use Rattle.rules.specs.Change.{add_document};
ghost use Rattle.rules.specs.Outcome.{outcome};
ghost use Rattle.rules.specs.Given.{AnswersBy};

use rules::Refusal;

/// 11: a new last document, the filling of a definition.
// Alike in three calls: one for all would take refusal and plan as closures, with contracts as long as this text.
pub fn add_document(
    store: &[u8],
    definition: u32,
    text: &[u8],
    out: &mut [u8],
) -> Result<usize, Refusal>
    ensures { AnswersBy (outcome (add_document definition text.now) store.now (length out.old)) out.old result out.new }
{
    if !store_check::passes(store) {
        return Err(Refusal::BadStore);
    }
    document_refusals::add_document_refusal(store, definition, text)?;
    let plan = document_plans::adding_document(definition);
    store_writer::edit(store, plan, text, out)
}
