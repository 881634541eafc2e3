//! Reading a printed text: the form that it declares, confirmed; then its documents, judged before a byte is written.
#![tactic(auto)]

ghost use Rattle.std.specs.Prelude.{◌≡◌, true, length};
ghost use Rattle.rules.specs.Layout.{base_version};
ghost use Rattle.rules.specs.Decode.{row_count};
ghost use Rattle.rules.specs.Passing.{passes};
ghost use Rattle.rules.specs.Given.{number_given, length_given, AnswersBy};
ghost use Rattle.codec.specs.Laid.{Laid};
ghost use Rattle.reading_rules.specs.Reading.{ReadPromise};
ghost use Rattle.text_reading.specs.Stages.{documents_outcome};
ghost use Rattle.read_call.specs.Reading.{Confirmed, RowsThere, documents_stored};

use rules::Refusal;

// Confirms a form, which has no rows: how long its text is, if it passes and is the front of the text.
fn confirm(form: &[u8], text: &[u8]) -> Option<usize>
    requires { row_count form.now ≡ 0 }
    ensures { Confirmed form.now text.now result }
{
    if !store_check::passes_bare(form) {
        return None;
    }
    form_front::front_of(form, text)
}

// Writes the store of a form and of the documents of a text, which are so many rows.
fn put_store(form: &[u8], text: &[u8], rows: usize, out: &mut [u8]) -> usize
    requires { (passes form.now ≡ true) × RowsThere form.now text.now rows }
    ensures { Laid (documents_stored form.now text.now) out.old 0 result out.new }
{
    let w = layout::width_in(form);
    let d = layout::definition_count(form);
    let p = layout::particle_count(form);
    let a = layout::attribute_count(form);
    let start = layout::header_size();
    let end = lookup::row_start(form);
    let bodies = &form[start..end];
    let at = plan_writer::put_form(w, form, bodies, rows + 1, d, p, a, rows, out);
    document_row_writer::put_documents(w, form, text, out, at)
}

// The answer for the documents of a text behind a form.
fn read_documents(form: &[u8], text: &[u8], out: &mut [u8]) -> Result<usize, Refusal>
    requires { passes form.now ≡ true }
    ensures { AnswersBy (documents_outcome form.now text.now (length out.old)) out.old result out.new }
{
    let Some(rows) = document_reading::judge_documents(form, text) else {
        return Err(Refusal::BadText);
    };
    let w = layout::width_in(form);
    let length = lookup::row_start(form) + layout::times(layout::row_size(w), rows);
    if length > out.len() {
        return Err(Refusal::Buffer);
    }
    put_store(form, text, rows, out);
    Ok(length)
}

/// Reads a printed text into a store of the first version.
pub fn read_text(text: &[u8], out: &mut [u8]) -> Result<usize, Refusal>
    ensures { ReadPromise base_version text.now out.old (number_given result) (length_given result) out.new }
{
    let mut form = [0; 9768];
    let w = layout::width_of(1);
    let Some(size) = declaration_reading::read_form(1, w, text, &mut form) else {
        return Err(Refusal::BadText);
    };
    let Some(length) = confirm(&form[..size], text) else {
        return Err(Refusal::BadText);
    };
    read_documents(&form[..size], codec::after(text, length), out)
}
