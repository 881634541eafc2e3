//! The bytes of a store after a plan, for which there is room: its rows, then its header and its form.
#![tactic(auto)]

ghost use Rattle.std.specs.Prelude.{◌≡◌, true, ◌++◌, ◌+◌, length};
ghost use Rattle.rules.specs.Layout.{flat_bytes};
ghost use Rattle.rules.specs.Decode.{number_at};
ghost use Rattle.rules.specs.Passing.{passes};
ghost use Rattle.rules.specs.WellFormed.{is_value};
ghost use Rattle.codec.specs.Laid.{Laid};
ghost use Rattle.layout.specs.Bodies.{Width, width_of};
ghost use Rattle.layout.specs.Header.{headed};
ghost use Rattle.layout.specs.Fields.{next_at};
ghost use Rattle.lookup.specs.Bodies.{bodies_of};
ghost use Rattle.row_writer.specs.Written.{new_in};
ghost use Rattle.planned_rows.specs.Planned.{rows_after, planned_in};
ghost use Rattle.planned_rows.specs.Walking.{Sized};
ghost use Rattle.store_laws.specs.Forms.{form_read, Forms};
ghost use Rattle.store_limits.specs.Limits.{limit_of};
ghost use Rattle.plan_writer.specs.Heads.{Heads};

use row_walk::Plan;
use store_limits::ROWS_PAST_CEILING;

/// Header and form of a store that gets another form.
pub fn put_form(
    w: usize,
    store: &[u8],
    form: &[u8],
    next: usize,
    d: usize,
    p: usize,
    a: usize,
    r: usize,
    out: &mut [u8],
) -> usize
    requires { Width w × Heads form.now next d p a r }
    ensures { Laid (headed w next d p a r store.now ++ form.now) out.old 0 result out.new }
{
    let at = layout_writer::put_header(w, store, next, d, p, a, r, out);
    codec::put(form, out, at)
}

/// Writes the store after a plan, for which there is room: the rows at their place, then the header, which has their
/// number, and the form.
pub fn put_edited(
    store: &[u8],
    form: &[u8],
    d: usize,
    p: usize,
    a: usize,
    plan: Plan,
    text: &[u8],
    out: &mut [u8],
) -> usize
    requires { (passes store.now ≡ true) × (is_value (width_of store.now) text.now ≡ true) × Sized plan × Forms (width_of store.now) form.now d p a
        × (limit_of (width_of store.now) (length form.now) (length (rows_after plan text.now (bodies_of store.now)))
        (number_at next_at 4 store.now + new_in (rows_after plan text.now (bodies_of store.now))) (length out.old)
        ≡ 0) }
    ensures { Laid
        (flat_bytes (width_of store.now)
        (planned_in (form_read (width_of store.now) form.now d p a) plan text.now (bodies_of store.now)))
        out.old 0 result out.new }
{
    let w = layout::width_in(store);
    let start = layout::header_size() + form.len();
    let written = planned_rows::walk_rows(store, plan, text, start, out);
    let count = ROWS_PAST_CEILING - written.left;
    put_form(w, store, form, written.serial, d, p, a, count, out);
    written.at
}
