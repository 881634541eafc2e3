//! What may come after a child, for all children at once: the facts of `automaton` of a model and a last child x, with
//! the set of all definition indices that can follow. And a table of these sets, so that a model is folded once and
//! looked up afterwards.
#![tactic(auto)]

ghost use Rattle.std.specs.Prelude.{◌≡◌, ◌<◌, ◌≤◌};
ghost use Rattle.rules.specs.declared.GroupKind.TheVariants.{Sequence};
ghost use Rattle.rules.specs.Bytes.{numbers};
ghost use Rattle.rules.specs.Automaton.{facts};
ghost use Rattle.sets.specs.Sets.{has};
ghost use Rattle.model.specs.Members.{all_members};
ghost use Rattle.next_children.specs.Nexts.{Told};
ghost use Rattle.next_children.specs.Names.{FirstName, NamesIn, After};
ghost use Rattle.next_children.specs.Line.{NextsLine};

use automaton::{Names, Nexts};
use layout::PARTICLE_SIZE;
use model::What;
use rules::GroupKind;

/// All names below 64, in the sets of `sets`.
#[derive(Clone, Copy)]
struct AllNames;

impl Names for AllNames {
    type Set = u64;

    ghost Tells = { λ names y. y < 64 };

    ghost has = { has };

    #[tactic(auto, using(sets::proofs::Laws::has_none))]
    fn none(self) -> u64 {
        0
    }

    #[tactic(auto, using(sets::proofs::Laws::has_bit))]
    fn only(self, i: usize) -> u64 {
        sets::bit(i)
    }

    #[tactic(auto, using(sets::proofs::Laws::has_union))]
    fn union(self, a: u64, b: u64) -> u64 {
        sets::union(a, b)
    }

    #[tactic(auto, using(sets::proofs::Laws::has_given))]
    fn given(self, there: bool, a: u64) -> u64 {
        sets::given(there, a)
    }
}

/// A model's line of a table, for the children below a number: at 0 those that may come first, at 1 + x those that may
/// follow the child x; those after which no child is owed; whether none is owed at all.
#[derive(Clone, Copy)]
pub struct Line {
    pub after: [u64; 65],
    pub lasts: u64,
    pub nothing: bool,
}

/// A line that says nothing.
pub const BLANK: Line = Line {
    after: [0; 65],
    lasts: 0,
    nothing: false,
};

/// Of a whole model.
pub fn nexts_of(ms: &[u8], x: usize) -> Nexts<u64>
    ensures { Told result (λ y. facts numbers Sequence (all_members ms.now) x y) }
{
    automaton::nexts_from(AllNames, ms, 0, GroupKind::Sequence, x)
}

// The element that a particle is, where it is one.
fn first_name(particle: &[u8]) -> u64
    ensures { FirstName particle.now result }
{
    match model::read_particle(particle, 0).what {
        What::Element(i) => sets::bit(i),
        What::Group(_, _) => 0,
    }
}

// The elements that a model names.
fn names_in(ms: &[u8]) -> u64
    ensures { NamesIn ms.now result }
{
    let mut names: u64 = 0;
    for particle in ms.chunks_exact(PARTICLE_SIZE) {
        names = sets::union(names, first_name(particle));
    }
    names
}

// What may follow x, and whether a child is owed after it; the model need not be read where it does not name x.
fn after_child(ms: &[u8], names: u64, x: usize) -> Nexts<u64>
    requires { (x < 64) × NamesIn ms.now names }
    ensures { After (all_members ms.now) x result }
{
    if sets::contains(names, x) {
        return nexts_of(ms, x);
    }
    Nexts {
        nothing: false,
        first: 0,
        last: false,
        follow: 0,
    }
}

/// Writes the line of a model, for the children below n.
pub fn fill(ms: &[u8], n: usize, line: &mut Line)
    requires { n ≤ 64 }
    ensures { NextsLine n (all_members ms.now) line.new }
{
    let names = names_in(ms);
    let none = nexts_of(ms, 0);
    line.after[0] = none.first;
    line.nothing = none.nothing;
    let mut lasts: u64 = 0;
    for x in 0..n {
        let r = after_child(ms, names, x);
        line.after[x + 1] = r.follow;
        lasts = sets::union(lasts, sets::given(r.last, sets::bit(x)));
    }
    line.lasts = lasts;
}
