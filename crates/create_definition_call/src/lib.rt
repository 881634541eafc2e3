//! Change 1: a definition created. The call is the check, the first refusal that applies, and the store that is left.
#![tactic(auto)]

ghost use Rattle.std.specs.Prelude.{length};
ghost use Rattle.rules.specs.Change.{create_definition};
ghost use Rattle.rules.specs.Outcome.{outcome};
ghost use Rattle.rules.specs.Given.{AnswersBy};

use rules::Refusal;

/// Change 1: creates a definition, the last.
// The code is a number down to its refusal (4), before which others come.
pub fn create_definition(
    store: &[u8],
    name: &[u8],
    kind: u32,
    out: &mut [u8],
) -> Result<usize, Refusal>
    ensures { AnswersBy (outcome (create_definition name.now kind) store.now (length out.old)) out.old result out.new }
{
    if !store_check::passes(store) {
        return Err(Refusal::BadStore);
    }
    definition_refusals::create_condition(store, name, kind)?;
    definition_refusals::create_limit(store, name, kind, out.len())?;
    let length = definition_creation::put_created(store, name, kind, out);
    Ok(length)
}
