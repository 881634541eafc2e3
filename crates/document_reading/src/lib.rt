//! The rows that the documents of a text say, judged: some rows at a time, written into an array.
#![tactic(auto)]

ghost use Rattle.std.specs.Prelude.{◌≡◌, true};
ghost use Rattle.rules.specs.Passing.{passes};
ghost use Rattle.form_table.specs.Table.{TableOf};
ghost use Rattle.document_reading.specs.Judging.{Stand};

use form_table::Entry;
use row_state::STATE;

// So many rows are judged at a time; and their bytes, where a row has at most 267. Fixed, since nothing allocates here:
// so are the state, the open elements and the table.
const BATCH: usize = 16;

const BATCH_BYTES: usize = 4272;

// Above every serial: rows are counted from 1, and no more are taken than a store has.
const NEXT: usize = 4097;

// ---- documents

// Judges the documents of a text by a form and its table: how many rows they are, if they fit.
fn judge_by(form: &[u8], table: &[Entry], text: &[u8]) -> Option<usize>
    requires { (passes form.now ≡ true) × TableOf form.now table.now }
    ensures { Stand form.now text.now result }
{
    let w = layout::width_in(form);
    let mut state = [0; STATE];
    let mut rows = [0; BATCH_BYTES];
    let mut here = document_row_writer::start();
    let mut t = text;
    // A `while`: a batch of rows is any number of bytes of the text.
    while 0 < t.len() {
        let before = here.count;
        let most = before + BATCH;
        let put = document_row_writer::put_rows(w, form, &mut here, most, t, &mut rows, 0)?;
        if layout::MAX_ROWS < here.count {
            return None;
        }
        let end = put.at;
        let read = &rows[..end];
        let count = here.count - before;
        if !row_check::walk_rows(form, NEXT, table, &mut state, read, count) {
            return None;
        }
        let rest = codec::after(t, put.size);
        t = rest;
    }
    let ends = row_check::walk_ends(form, table, &state);
    ((here.depth == 0) & ends).then_some(here.count)
}

/// Judges the documents of a text by a form that passes: how many rows they are, if they fit.
pub fn judge_documents(form: &[u8], text: &[u8]) -> Option<usize>
    requires { passes form.now ≡ true }
    ensures { Stand form.now text.now result }
{
    let mut table = [form_table::BLANK; form_table::TABLE];
    row_check::lay_table(form, &mut table);
    judge_by(form, &table, text)
}
