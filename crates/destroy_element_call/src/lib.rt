//! Change 13: an element destroyed. The call is the check, the first refusal that applies, and the plan of the change.
#![tactic(auto)]

ghost use Rattle.std.specs.Prelude.{length};
ghost use Rattle.rules.specs.Change.{destroy_element};
ghost use Rattle.rules.specs.Outcome.{outcome};
ghost use Rattle.rules.specs.Given.{AnswersBy};

use rules::Refusal;

/// 13: destroys an element with all below it, or a whole document.
pub fn destroy_element(store: &[u8], element: u32, out: &mut [u8]) -> Result<usize, Refusal>
    ensures { AnswersBy (outcome (destroy_element element) store.now (length out.old)) out.old result out.new }
{
    if !store_check::passes(store) {
        return Err(Refusal::BadStore);
    }
    document_refusals::destroy_element_refusal(store, element)?;
    let plan = document_plans::destroying_element(element);
    store_writer::edit(store, plan, &store[..0], out)
}
