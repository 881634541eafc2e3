//! Change 16: the text of an element set. The call is the check, the
//! first refusal that applies, and the plan of the change.
#![tactic(auto)]

ghost use Rattle.std.specs.Prelude.{length};
ghost use Rattle.rules.specs.Change.{set_text};
ghost use Rattle.rules.specs.Outcome.{outcome};
ghost use Rattle.rules.specs.Given.{AnswersBy};

use rules::Refusal;

/// 16: sets the text of a PCDATA element.
// Alike in three calls: one for all would take refusal and plan as closures, with contracts as long as this text.
pub fn set_text(store: &[u8], element: u32, text: &[u8], out: &mut [u8]) -> Result<usize, Refusal>
    ensures { AnswersBy (outcome (set_text element text.now) store.now (length out.old)) out.old result out.new }
{
    if !store_check::passes(store) {
        return Err(Refusal::BadStore);
    }
    document_refusals::set_text_refusal(store, element, text)?;
    let plan = document_plans::setting_text(store, element);
    store_writer::edit(store, plan, text, out)
}
