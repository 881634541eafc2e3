//! The print of a store.
#![tactic(auto)]

ghost use Rattle.std.specs.Prelude.{length};
ghost use Rattle.rules.specs.Given.{AnswersBy};
ghost use Rattle.rules.specs.Print.{print_outcome};

use rules::Refusal;

/// Prints the store. A first print into a buffer of one byte, which clips it, tells the length.
pub fn print(store: &[u8], out: &mut [u8]) -> Result<usize, Refusal>
    ensures { AnswersBy (print_outcome store.now (length out.old)) out.old result out.new }
{
    if !store_check::passes(store) {
        return Err(Refusal::BadStore);
    }
    let mut clipped = [0; 1];
    let length = printing::print_store(store, &mut clipped);
    if length > out.len() {
        return Err(Refusal::Buffer);
    }
    printing::print_store(store, out);
    Ok(length)
}
