//! What a change does to the tree rows: the plan that changes 2 to 16 share, and the tests of one row that the walk
//! over the rows makes by it.
#![tactic(auto)]

ghost use Rattle.std.specs.Prelude.{◌≡◌, ◌+◌, ◌≤◌, eqb};
ghost use Rattle.rules.specs.RowSorts.{row_number};
ghost use Rattle.row_walk.specs.Walk.{matches, is_later, spared, shifted, moved_index, is_set, is_below_taken, closes, closed, is_below, is_taken, is_filled, after_taken, at_first};
ghost use Rattle.row_walk.specs.Step.{valueless, kept_with, ends_due, is_plain, Moves, Fair};

pub mod numbers;

use filling::Filling;
use rules::RowSort;

/// Some rows: none; every row, and what stands above the documents; that alone; the elements of a definition; the rows
/// of an attribute; the element with a serial.
// `Nothing` is one of six cases that `matches` answers at once; as an Option it would be asked apart. So is `Never`
// below.
#[derive(Clone, Copy, PartialEq, Eq)]
pub enum Which {
    Nothing,
    Everything,
    Ground,
    Elements(usize),
    Attributes(usize),
    Serial(u32),
}

/// The rows that a filling comes before: none; the row with a serial; all but the rows of attributes below a number;
/// the elements of definitions that do not stand before a place in a model.
#[derive(Clone, Copy)]
pub enum Later {
    Never,
    Row(u32),
    Past(usize),
    Unmarked,
}

/// How indices from `from` on move.
#[derive(Clone, Copy)]
pub struct Shift {
    pub from: usize,
    pub more: usize,
    pub less: usize,
}

/// What a change does to the rows. Below the rows `above`: the rows `takes` are taken, each with all below it; and if
/// `fills`, the filling comes before the first row that is later, else last. `marks`: of each definition, 1 if its name
/// stands before a place in a model, 2 if it stands at the place, else 0. `spares`: where an element at the place is
/// the first later row, no filling comes. `keeps`: no row is taken up to the first that is later. The row with serial
/// `set` gets the call's value.
// `marks` is an array, as there is no heap. The flags stay flags: a plan sets each by itself, and they are read in tests.
#[derive(Clone, Copy)]
pub struct Plan {
    pub above: Which,
    pub takes: Which,
    pub fills: bool,
    pub later: Later,
    pub filling: Filling,
    pub marks: [u8; 64],
    pub keeps: bool,
    pub spares: bool,
    pub set: Option<u32>,
    pub definitions: Shift,
    pub attributes: Shift,
}

/// What is open between two rows. `taking`: the depth of a row taken, whose deeper rows go. `below`: the depth of the
/// rows right below the open row of `above`. `due`: its filling is still to come.
#[derive(Clone, Copy)]
pub struct Open {
    pub taking: Option<usize>,
    pub below: Option<usize>,
    pub due: bool,
}

/// What the walk reads of a row. Of the sort it keeps the byte, as `read_head` gives back each row, also one whose byte
/// is no sort's.
#[derive(Clone, Copy)]
pub struct Head {
    pub depth: usize,
    pub sort: u8,
    pub index: usize,
    pub serial: usize,
}

impl Head {
    // Whether the row is one of a sort.
    fn is(&self, sort: RowSort) -> bool
        ensures { result ≡ eqb self.now.sort (row_number sort) }
    {
        RowSort::read(self.sort) == Some(sort)
    }
}

// ---- tests of one row

/// Whether a row is one of some rows.
pub fn matches(w: Which, h: Head) -> bool
    ensures { result ≡ matches w (valueless h).row }
{
    match w {
        Which::Nothing => false,
        Which::Everything => true,
        Which::Ground => false,
        Which::Elements(i) => h.is(RowSort::Element) & (h.index == i),
        Which::Attributes(j) => h.is(RowSort::Attribute) & (h.index == j),
        Which::Serial(k) => h.is(RowSort::Element) & (h.serial == k as usize),
    }
}

/// Whether a filling comes before a row.
pub fn is_later(plan: &Plan, h: Head) -> bool
    ensures { result ≡ is_later plan.now.marks plan.now.later (valueless h).row }
{
    match plan.later {
        Later::Never => false,
        Later::Row(k) => h.serial == k as usize,
        Later::Past(j) => !(h.is(RowSort::Attribute) & (h.index < j)),
        Later::Unmarked => h.is(RowSort::Element) & !(codec::byte(&plan.marks, h.index) == 1),
    }
}

// Whether a row is an element at the place, before which no filling comes.
fn spared(plan: &Plan, h: Head) -> bool
    ensures { result ≡ spared plan.now (valueless h).row }
{
    plan.spares & (h.is(RowSort::Element) & (codec::byte(&plan.marks, h.index) == 2))
}

// ---- renumbering

fn shifted(s: Shift, i: usize) -> usize
    requires { (i ≤ 1000) × Moves s }
    ensures { (result ≡ shifted s i) × (result ≤ 2000) }
{
    if s.from <= i {
        return layout::minus(i + s.more, s.less);
    }
    i
}

/// The index of a row after the change.
pub fn moved_index(plan: &Plan, h: Head) -> usize
    requires { Moves plan.now.definitions × Moves plan.now.attributes × Fair h }
    ensures { (result ≡ moved_index plan.now (valueless h).row) × (result ≤ 2000) }
{
    match RowSort::read(h.sort) {
        Some(RowSort::Element) => shifted(plan.definitions, h.index),
        Some(RowSort::Attribute) => shifted(plan.attributes, h.index),
        _ => h.index,
    }
}

/// Whether a row gets the call's value.
pub fn is_valued(plan: &Plan, h: Head) -> bool
    ensures { result ≡ is_set plan.now.set h.serial }
{
    plan.set.is_some_and(|k| h.serial == k as usize)
}

// ---- what a row meets

/// Whether a row stands below a row taken.
pub fn gone(o: Open, h: Head) -> bool
    ensures { result ≡ is_below_taken o (valueless h) }
{
    o.taking.is_some_and(|d| d < h.depth)
}

/// Whether a row is not below the open row any more.
pub fn closes(o: Open, h: Head) -> bool
    requires { Fair h }
    ensures { result ≡ closes o (valueless h) }
{
    o.below.is_some_and(|d| h.depth < d)
}

/// What is open once a row has closed what it closes.
pub fn closed(o: Open, h: Head) -> Open
    requires { Fair h }
    ensures { result ≡ closed o (valueless h) }
{
    if closes(o, h) {
        return Open {
            taking: None,
            below: None,
            due: false,
        };
    }
    Open {
        taking: None,
        below: o.below,
        due: o.due,
    }
}

/// Whether a row stands right below the open row.
pub fn is_below(o: Open, h: Head) -> bool
    requires { Fair h }
    ensures { result ≡ is_below o (valueless h) }
{
    o.below == Some(h.depth)
}

/// Whether a row is taken.
pub fn is_taken(plan: &Plan, o: Open, h: Head) -> bool
    requires { Fair h }
    ensures { result ≡ is_taken plan.now o (valueless h) }
{
    let below = (plan.above == Which::Everything) | is_below(o, h);
    (below & matches(plan.takes, h)) & !(plan.keeps & o.due)
}

/// Whether a filling comes right before a row.
pub fn is_filled(plan: &Plan, o: Open, h: Head) -> bool
    requires { Fair h }
    ensures { result ≡ is_filled plan.now o (valueless h) }
{
    (o.due & is_below(o, h)) && (is_later(plan, h) & !spared(plan, h))
}

/// Whether what is due does not stay due after a row right below the open row.
pub fn ends_due(plan: &Plan, o: Open, h: Head) -> bool
    requires { Fair h }
    ensures { result ≡ ends_due plan.now o (valueless h) }
{
    if o.due & is_below(o, h) {
        return is_later(plan, h);
    }
    false
}

/// Whether a row stays as it is, and nothing comes before it.
pub fn is_plain(plan: &Plan, o: Open, h: Head) -> bool
    requires { Moves plan.now.definitions × Moves plan.now.attributes × Fair h }
    ensures { result ≡ is_plain plan.now o (valueless h) }
{
    let q = closed(o, h);
    let due = (closes(o, h) & o.due) | ends_due(plan, q, h);
    let same = (moved_index(plan, h) == h.index) & !is_valued(plan, h);
    (!gone(o, h) & !due) & (!is_taken(plan, q, h) & same)
}

// ---- what is open after a row that is taken, after one that is kept, and before the first

pub fn taken(o: Open, h: Head) -> Open
    requires { Fair h }
    ensures { result ≡ after_taken o (valueless h) }
{
    Open {
        taking: Some(h.depth),
        below: o.below,
        due: o.due,
    }
}

/// `due`: what is due stays due after the row.
pub fn kept(plan: &Plan, o: Open, h: Head, due: bool) -> Open
    requires { Fair h }
    ensures { result ≡ kept_with plan.now due o (valueless h) }
{
    if matches(plan.above, h) {
        return Open {
            taking: None,
            below: Some(h.depth + 1),
            due: plan.fills,
        };
    }
    Open {
        taking: None,
        below: o.below,
        due,
    }
}

pub fn at_first(plan: &Plan) -> Open
    ensures { result ≡ at_first plan.now }
{
    if plan.above == Which::Ground {
        return Open {
            taking: None,
            below: Some(0),
            due: plan.fills,
        };
    }
    Open {
        taking: None,
        below: None,
        due: false,
    }
}
