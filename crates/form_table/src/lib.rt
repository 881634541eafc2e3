//! The table of a form: for each definition the line of its model and the attributes that it needs.
#![tactic(auto)]

ghost use Rattle.std.specs.Prelude.{◌≡◌, not, ◌<◌, ◌≤◌, length};
ghost use Rattle.sets.specs.Sets.{has};
ghost use Rattle.model.specs.Members.{all_members};
ghost use Rattle.model.specs.Steps.{steps, finishes};
ghost use Rattle.next_children.specs.Line.{NextsLine};
ghost use Rattle.form_index.specs.Reading.{model_part};
ghost use Rattle.form_table.specs.Every.{every};
ghost use Rattle.form_table.specs.Table.{freed_of, FormFew, Lined, Needed, OneNeed, Needs, TabledForm};

use layout::Form;
use next_children::Line;
use rules::AttributeSort;

/// So many definitions a table has room for.
pub const TABLE: usize = 64;

/// What a table has for a definition: the line of its model, and the set of the attributes that it needs.
#[derive(Clone, Copy)]
pub struct Entry {
    pub line: Line,
    pub needed: u64,
}

/// An entry that says nothing. (A constant of the whole table is slower: tried, it is copied for each check.)
pub const BLANK: Entry = Entry {
    line: next_children::BLANK,
    needed: 0,
};

// ---- the table is filled
// The models' sets.
fn lay_models(form: &Form<'_>, table: &mut [Entry])
    requires { FormFew form.now × (64 ≤ length table.old) }
    ensures { Lined form.now form.now.definition_count table.new }
{
    let n = form.definition_count;
    for i in 0..n {
        let part = form_index::model_part(form.definitions, form.particles, i);
        let entry = &mut table[i];
        next_children::fill(part, n, &mut entry.line);
        entry.needed = 0;
    }
}

// Attribute j, if its owner needs it.
fn lay_need(form: &Form<'_>, j: usize, table: &mut [Entry])
    requires { FormFew form.now × (j < 64) × (64 ≤ length table.old) }
    ensures { OneNeed form.now j table.old table.new }
{
    let record = layout::attribute_at(form.width, form.attributes, j);
    let i = layout::attribute_owner(record);
    let sort = AttributeSort::from(layout::attribute_sort(record));
    if !records::must_be_present(form.version, sort) {
        return;
    }
    if i >= form.definition_count {
        return;
    }
    table[i].needed = sets::with(table[i].needed, j);
}

// The attributes that each definition needs.
fn lay_needs(form: &Form<'_>, table: &mut [Entry])
    requires { FormFew form.now × (64 ≤ length table.old) }
    ensures { Needs form.now form.now.attribute_count table.old table.new }
{
    for j in 0..form.attribute_count {
        lay_need(form, j, table);
    }
}

/// The table of a form.
pub fn fill_table(form: &Form<'_>, table: &mut [Entry])
    requires { FormFew form.now × (64 ≤ length table.old) }
    ensures { TabledForm form.now table.new }
{
    lay_models(form, table);
    lay_needs(form, table);
}

// ---- the table is looked up
/// The model of a definition, by the bodies that it stands in, and its line for the children below `count`.
// `last` is 0 for no child and else 1 and the child's index, as `steps` and `finishes` count and the state of the walk
// has it (row_state): so it is the place in the line.
#[derive(Clone, Copy)]
pub struct Model<'a> {
    pub definitions: &'a [u8],
    pub particles: &'a [u8],
    pub definition: usize,
    pub count: usize,
    pub line: &'a Line,
    pub ghost small: { definition ≤ 256 },
    pub ghost few: { count ≤ 64 },
    pub ghost laid: { NextsLine count (all_members (model_part definitions.now particles.now definition)) line.now },
}

impl Model<'_> {
    ghost use Rattle.form_table.specs.Lent.{members_of};

    // The particles, for what the line does not have.
    fn part(&self) -> &[u8]
        ensures { all_members result.now ≡ members_of self.now }
    {
        form_index::model_part(self.definitions, self.particles, self.definition)
    }

    /// Whether the child y may come after `last`.
    pub fn follows(&self, last: usize, y: usize) -> bool
        ensures { result ≡ steps (members_of self.now) last y }
    {
        if (last <= self.count) & (y < 64) {
            return sets::contains(self.line.after[last], y);
        }
        automaton::steps(self.part(), last, y)
    }

    /// Whether no child is owed after `last`.
    pub fn ends(&self, last: usize) -> bool
        ensures { result ≡ finishes (members_of self.now) last }
    {
        if last == 0 {
            return self.line.nothing;
        }
        if last <= self.count {
            return sets::contains(self.line.lasts, last - 1);
        }
        automaton::finishes(self.part(), last)
    }
}

/// A form of no more definitions and attributes than a table has room for, and its table.
#[derive(Clone, Copy)]
pub struct FormTable<'a> {
    pub form: Form<'a>,
    pub entries: &'a [Entry],
    pub ghost tabled: { TabledForm form entries.now },
}

impl FormTable<'_> {
    ghost use Rattle.form_table.specs.Lent.{members_of};

    /// The attributes that definition i needs.
    pub fn needed(&self, i: usize) -> u64
        requires { i < self.now.form.definition_count }
        ensures { Needed self.now.form i result }
    {
        self.entries[i].needed
    }

    /// The model of definition i.
    pub fn model(&self, i: usize) -> Model<'_>
        requires { i < self.now.form.definition_count }
        ensures { members_of result ≡ all_members (model_part self.now.form.definitions.now self.now.form.particles.now i) }
    {
        Model {
            definitions: self.form.definitions,
            particles: self.form.particles,
            definition: i,
            count: self.form.definition_count,
            line: &self.entries[i].line,
        }
    }
}

// ---- attributes, looked up
/// Whether none of the attributes from `from` up to `to` is needed.
// It forwards so that its clause says it of attributes, for both callers.
pub fn spares(needed: u64, from: usize, to: usize) -> bool
    requires { to ≤ 64 }
    ensures { result ≡ every (λ j. not (has needed j)) to from }
{
    sets::none_between(needed, from, to)
}

/// Whether no attribute that is needed is owed any more.
pub fn is_freed(needed: u64, a: usize, seen: usize) -> bool
    requires { a ≤ 64 }
    ensures { result ≡ freed_of needed a seen }
{
    if seen == 0 {
        return true;
    }
    spares(needed, seen - 1, a)
}
