//! The rows of a store after a plan: the walk that writes them, how many they are at most, and whether the store with
//! them is within the limits.
#![tactic(auto)]

ghost use Rattle.std.specs.Prelude.{◌≡◌, true, ◌+◌, ◌<◌, ◌≤◌, length};
ghost use Rattle.rules.specs.Given.{number_given};
ghost use Rattle.rules.specs.Decode.{number_at, row_count};
ghost use Rattle.rules.specs.Passing.{passes};
ghost use Rattle.rules.specs.WellFormed.{is_value};
ghost use Rattle.layout.specs.Fields.{next_at};
ghost use Rattle.layout.specs.Bodies.{width_of, most_form};
ghost use Rattle.lookup.specs.Bodies.{bodies_of};
ghost use Rattle.store_limits.specs.Limits.{limit_of};
ghost use Rattle.row_writer.specs.Written.{Written, new_in};
ghost use Rattle.row_walk.specs.Refilled.{refilled};
ghost use Rattle.row_bound.specs.Bound.{counted_to, Bounds};
ghost use Rattle.planned_rows.specs.Planned.{fill_of, rows_after};
ghost use Rattle.planned_rows.specs.Walking.{walk_from, Sized};

use filling::Filling;
use row_bound::Most;
use row_walk::Plan;
use row_writer::Cursor;
use rules::Refusal;
use store_limits::ROWS_PAST_CEILING;

/// The walk over the rows of a store, which writes from `at` on.
pub fn walk_rows(store: &[u8], plan: Plan, text: &[u8], at: usize, out: &mut [u8]) -> Cursor
    requires { (passes store.now ≡ true) × (is_value (width_of store.now) text.now ≡ true) × Sized plan × (at < 549755813888) }
    ensures { Written (width_of store.now) (rows_after plan text.now (bodies_of store.now))
        (walk_from at store.now) out.old result out.new }
{
    let form = layout::form_of(store);
    let rows = layout::rows_of(store);
    let count = layout::row_count(store);
    let mut c = Cursor {
        at,
        left: ROWS_PAST_CEILING,
        serial: layout::next_serial(store),
    };
    walk_writer::walk(&form, rows, count, plan, text, &mut c, out);
    c
}

// The most rows that a plan adds to those of a store.
fn most_added(store: &[u8], plan: Plan, text: &[u8]) -> Most
    requires { (passes store.now ≡ true) × (is_value (width_of store.now) text.now ≡ true) × Sized plan }
    ensures { Bounds (rows_after plan text.now (bodies_of store.now)) (fill_of plan text.now (bodies_of store.now) 0)
        (row_count store.now) result }
{
    let form = layout::form_of(store);
    let rows = layout::rows_of(store);
    let count = layout::row_count(store);
    row_bound::most_added(&form, rows, count, plan, text)
}

// A plan with one row in the place of each filling: the new rows of its walk are as many as the places that are filled.
fn one_row_each(plan: Plan) -> Plan
    ensures { result ≡ refilled plan (Filling.Attribute 0) }
{
    Plan {
        filling: Filling::Attribute(0),
        ..plan
    }
}

// The refusal of the store after a plan whose filling has `one` rows, as they are counted. The places are
// counted by a walk into a buffer of one byte, so that no filling is gone through for it.
fn filled_refusal(
    store: &[u8],
    form: usize,
    plan: Plan,
    text: &[u8],
    one: usize,
    room: usize,
) -> Result<(), Refusal>
    requires { (passes store.now ≡ true) × (is_value (width_of store.now) text.now ≡ true) × Sized plan × (form ≤ most_form) × (1 ≤ one)
        × (one ≡ counted_to (fill_of plan text.now (bodies_of store.now) 0)) }
    ensures { number_given result
        ≡ limit_of (width_of store.now) form (length (rows_after plan text.now (bodies_of store.now)))
        (number_at next_at 4 store.now + new_in (rows_after plan text.now (bodies_of store.now))) room }
{
    let w = layout::width_in(store);
    let next = layout::next_serial(store);
    let mut clipped = [0; 1];
    let each = one_row_each(plan);
    let counted = walk_rows(store, each, text, 0, &mut clipped);
    if counted.left == 0 {
        return Err(Refusal::Ceiling);
    }
    let places = counted.serial - next;
    let new = one * places;
    store_limits::limit(
        w,
        form,
        ROWS_PAST_CEILING - counted.left - places + new,
        next + new,
        room,
    )
}

/// The refusal of the store after a plan, with a form of so many bytes. Only where the most that the plan adds
/// is too much are the rows counted, by a walk into a buffer of one byte.
pub fn refusal(
    store: &[u8],
    form: usize,
    plan: Plan,
    text: &[u8],
    room: usize,
) -> Result<(), Refusal>
    requires { (passes store.now ≡ true) × (is_value (width_of store.now) text.now ≡ true) × Sized plan × (form ≤ most_form) }
    ensures { number_given result
        ≡ limit_of (width_of store.now) form (length (rows_after plan text.now (bodies_of store.now)))
        (number_at next_at 4 store.now + new_in (rows_after plan text.now (bodies_of store.now))) room }
{
    let w = layout::width_in(store);
    let most = most_added(store, plan, text);
    let more = most.all;
    let count = layout::row_count(store);
    let next = layout::next_serial(store);
    if store_limits::limit(w, form, count + more, next + more, room).is_ok() {
        return Ok(());
    }
    if let Some(one) = most.one {
        return filled_refusal(store, form, plan, text, one, room);
    }
    let mut clipped = [0; 1];
    let counted = walk_rows(store, plan, text, 0, &mut clipped);
    store_limits::limit(
        w,
        form,
        ROWS_PAST_CEILING - counted.left,
        counted.serial,
        room,
    )
}
