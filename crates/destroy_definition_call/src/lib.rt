//! Change 2: a definition destroyed. The call is the check, the first refusal that applies, and the store that is left.
#![tactic(auto)]

ghost use Rattle.std.specs.Prelude.{length};
ghost use Rattle.rules.specs.Change.{destroy_definition};
ghost use Rattle.rules.specs.Outcome.{outcome};
ghost use Rattle.rules.specs.Given.{AnswersBy};

use rules::Refusal;

/// Change 2: destroys a definition, with its model and its attributes.
pub fn destroy_definition(store: &[u8], definition: u32, out: &mut [u8]) -> Result<usize, Refusal>
    ensures { AnswersBy (outcome (destroy_definition definition) store.now (length out.old)) out.old result out.new }
{
    if !store_check::passes(store) {
        return Err(Refusal::BadStore);
    }
    definition_refusals::destroy_condition(store, definition)?;
    definition_refusals::destroy_limit(store, definition, out.len())?;
    let left = definition_removal::put_destroyed(store, definition, out);
    Ok(left)
}
