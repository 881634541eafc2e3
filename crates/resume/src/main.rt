//! Stops the walk over the tree rows after any number of rows, goes on from its state alone, and counts the answers
//! that are the whole walk's, on three stores and on faults in their rows. Paper 02, W3: 'From the walk's state after
//! any row, of at most 4,096 bytes, the bytes before the tree body and the rows left give the whole walk's answer.' The
//! first part of a walk hands on 130 bytes and nothing else: if the answer hung on more, fewer answers than places
//! would be the same.
#![tactic(auto)]

ghost use Rattle.std.specs.Prelude.{◌≡◌, ◌*◌, ◌<◌, ◌≤◌, length, IfSome};
ghost use Rattle.rules.specs.Layout.{row_size};
ghost use Rattle.layout.specs.Bodies.{width_of};
ghost use Rattle.row_check.specs.Walking.{FewIn};

use row_state::STATE;
use sample_stores::{CLUB, LEGS};

// ---- the two parts of a walk

// Rows of which the walk may be asked, with the bytes before the tree body: the counts are within the ceilings, and the
// rows are there.
#[derive(Clone, Copy)]
struct Rows<'a> {
    before: &'a [u8],
    bytes: &'a [u8],
    count: usize,
    ghost within: { FewIn before.now × (count ≤ 4096) },
    ghost there: { row_size (width_of before.now) * count ≤ length bytes.now },
}

impl<'a> Rows<'a> {
    fn of(before: &'a [u8], bytes: &'a [u8], count: usize) -> Option<Rows<'a>>
        ensures { IfSome result (λ rows. rows.count ≡ count) }
    {
        if layout::MAX_ROWS < count {
            return None;
        }
        if layout::MAX_DEFINITIONS < layout::definition_count(before) {
            return None;
        }
        if layout::MAX_ATTRIBUTES < layout::attribute_count(before) {
            return None;
        }
        let size = layout::row_size(layout::width_in(before));
        if bytes.len() < layout::times(size, count) {
            return None;
        }
        Some(Rows {
            before,
            bytes,
            count,
        })
    }

    // The first part of a walk: the state after these rows, if they may all come.
    // Not compiled into its callers: the table of one walk is gone before another lays its own.
    #[inline(never)]
    fn state_after(self) -> Option<[u8; STATE]> {
        let mut state = [0; STATE];
        let mut table = [form_table::BLANK; form_table::TABLE];
        row_check::lay_table(self.before, &mut table);
        let next = layout::next_serial(self.before);
        if !row_check::walk_rows(
            self.before,
            next,
            &table,
            &mut state,
            self.bytes,
            self.count,
        ) {
            return None;
        }
        Some(state)
    }

    // The answer from the bytes of a state on, over these rows.
    fn answer_after(self, bytes: &[u8]) -> bool {
        let mut state = [0; STATE];
        codec::lay(bytes, &mut state);
        if 64 < state[0] {
            return false;
        }
        let next = layout::next_serial(self.before);
        row_check::answer_from(self.before, next, &mut state, self.bytes, self.count)
    }

    // The whole walk's answer, as the check of a store asks for it.
    fn answer(self) -> bool {
        let next = layout::next_serial(self.before);
        row_check::rows_pass(self.before, next, self.bytes, self.count)
    }

    // ---- every place to stop

    // The state after the first m rows.
    fn state_at(self, m: usize) -> Option<[u8; STATE]> {
        Rows::of(self.before, self.bytes, m)?.state_after()
    }

    // The answer of a walk that stops after m rows. Rows that may not all come leave no state to go on from.
    fn answer_by_parts(self, m: usize) -> Option<bool>
        requires { m ≤ self.count }
    {
        let state = self.state_at(m)?;
        let size = layout::row_size(layout::width_in(self.before));
        let left = codec::after(self.bytes, layout::times(size, m));
        let rest = Rows::of(self.before, left, self.count - m)?;
        Some(rest.answer_after(&state))
    }

    // At how many of the places the answer is the whole walk's.
    fn same_answers(self) -> usize {
        let whole = self.answer();
        (0..=self.count)
            .filter(|m| self.answer_by_parts(*m).unwrap_or(false) == whole)
            .count()
    }

    // How many rows come before the first that may not.
    fn count_that_come(self) -> usize {
        (0..self.count)
            .find(|m| self.state_at(*m + 1).is_none())
            .unwrap_or(self.count)
    }
}

// ---- a line for each case

// As in `play`: this program stands on the walk alone, and would stand on all calls with `play`.
fn tell(what: &[u8]) {
    io::write_all(1, what);
}

fn tell_number(what: &[u8], number: usize) {
    tell(what);
    io::print_decimal(1, number as u64);
}

fn tell_rows(name: &[u8], rows: Rows<'_>) {
    tell(name);
    tell_number(b": ", rows.count);
    tell_number(b" rows, of which the first ", rows.count_that_come());
    tell(b" may come; the walk says ");
    tell(if rows.answer() { b"yes" } else { b"no" });
    tell_number(b"; resumed after 0 to ", rows.count);
    tell_number(b" rows: ", rows.same_answers());
    tell_number(b" of ", rows.count + 1);
    tell(b" the same\n");
}

// The rows of a store without the last `fewer`. The rows and the bytes before them are cut apart here.
fn tell_case(name: &[u8], store: &[u8], fewer: usize) {
    let s = layout::shape_of(store);
    let at = layout::through_attributes(s.width, s.definitions, s.particles, s.attributes);
    let before = codec::first(store, at);
    let bytes = codec::after(store, at);
    if let Some(rows) = Rows::of(before, bytes, layout::minus(s.rows, fewer)) {
        tell_rows(name, rows);
    }
}

// A store with one byte changed.
fn tell_fault<const N: usize>(name: &[u8], mut store: [u8; N], at: usize, value: u8)
    requires { at < N }
{
    store[at] = value;
    tell_case(name, &store, 0);
}

fn whole_stores() {
    let club = CLUB;
    let legs = LEGS;
    tell_case(b"the store that clubform leaves", &club, 0);
    tell_case(b"the same without the last row", &club, 1);
    tell_case(b"a store with groups and attributes", &legs, 0);
    tell_case(b"this one without the last row", &legs, 1);
}

fn club_faults() {
    tell_fault(b"a first row that is no root", CLUB, 157, 1);
    tell_fault(b"a definition past the table", CLUB, 158, 7);
    tell_fault(b"serial 0", CLUB, 160, 0);
    tell_fault(b"a serial equal to the next", CLUB, 160, 9);
    tell_fault(b"an element with a value", CLUB, 164, 1);
    tell_fault(b"a child that the model does not have there", CLUB, 334, 3);
}

fn legs_faults() {
    tell_fault(b"an attribute row twice", LEGS, 382, 0);
    tell_fault(b"a FIXED value that differs", LEGS, 390, 102);
    tell_fault(b"a REQUIRED row that is not there", LEGS, 336, 3);
    tell_fault(b"attribute rows out of order", LEGS, 338, 1);
    tell_fault(b"a row two deeper than the one before", LEGS, 425, 3);
    tell_fault(b"an element below EMPTY", LEGS, 469, 2);
    tell_fault(b"a text in COMPLEX", LEGS, 601, 1);
    tell_fault(b"two texts", LEGS, 556, 3);
    tell_fault(b"PCDATA without a text", LEGS, 600, 2);
    tell_fault(b"children in another order", LEGS, 470, 3);
}

// The state at its ceiling: 64 elements stand open.
fn deepest_stores() {
    let mut store = sample_stores::deepest();
    tell_case(b"64 elements in each other", &store, 0);
    tell_case(b"these without the last row", &store, 1);
    // the depth of the last row
    store[4345] = 62;
    tell_case(b"the last of them beside its parent", &store, 0);
}

fn main() {
    whole_stores();
    club_faults();
    legs_faults();
    deepest_stores();
}
