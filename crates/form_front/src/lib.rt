//! The form that a text declares, confirmed: it prints as the front of the text.
#![tactic(auto)]

ghost use Rattle.std.specs.Prelude.{◌≡◌, true};
ghost use Rattle.rules.specs.Passing.{passes};
ghost use Rattle.form_front.specs.Front.{FrontOf};

/// Prints a store that passes, and compares: how long its text is, if the other begins with it.
pub fn front_of(form: &[u8], text: &[u8]) -> Option<usize>
    requires { passes form.now ≡ true }
    ensures { FrontOf form.now text.now result }
{
    // As long as the longest text of a form, as there is no heap.
    let mut printed = [0; 24576];
    let length = printing::print_store(form, &mut printed);
    let front = printed.get(..length)?;
    text_scan::starts_with(text, front).then_some(length)
}
