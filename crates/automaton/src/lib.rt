//! The one-pass test of a row's children against a model: what a part of the model lets follow what, for one name or for
//! a set of names.
#![tactic(auto)]

ghost use Rattle.std.specs.Prelude.{◌≡◌, ℕ, Bool, false, ◌||◌, ◌&&◌, ◌<◌, ◌≤◌, eqb, length};
ghost use Rattle.rules.specs.declared.GroupKind.TheVariants.{Sequence, Choice};
ghost use Rattle.rules.specs.Bytes.{numbers};
ghost use Rattle.rules.specs.Layout.{particle_size};
ghost use Rattle.rules.specs.Automaton.{single, empty, join, quantify_facts, facts};
ghost use Rattle.model.specs.Particle.{first_facts};
ghost use Rattle.model.specs.Members.{members_from, all_members};
ghost use Rattle.model.specs.Steps.{steps, finishes};
ghost use Rattle.automaton.specs.Nexts.{told};

use layout::PARTICLE_SIZE;
use model::{What, read_particle};
use rules::{Facts, GroupKind, Quantifier};

/// The names y, by their definitions' indices, for which it is told whether y can be a word's first and whether y can
/// follow; and the sets of them that a part of a model gives.
pub trait Names: Copy {
    type Set: Copy;

    ghost Tells: { Self → ℕ → Type 0 };

    ghost has: { Self.Set → ℕ → Bool };

    fn none(self) -> Self::Set
        ensures { (y : ℕ) → has result y ≡ false };

    fn only(self, i: usize) -> Self::Set
        ensures { (y : ℕ) → Tells self y → has result y ≡ eqb y i };

    fn union(self, a: Self::Set, b: Self::Set) -> Self::Set
        ensures { (y : ℕ) → has result y ≡ (has a y || has b y) };

    /// The set, or none.
    fn given(self, there: bool, a: Self::Set) -> Self::Set
        ensures { (y : ℕ) → has result y ≡ (there && has a y) };
}

/// Of a part of a model and a last child x: whether it accepts nothing, what can be a word's first, whether x can be a
/// word's last, and what can follow x directly.
#[derive(Clone, Copy)]
pub struct Nexts<S> {
    pub nothing: bool,
    pub first: S,
    pub last: bool,
    pub follow: S,
}

fn no_members<N: Names>(names: N, kind: GroupKind) -> Nexts<N::Set>
    ensures { (y : ℕ) → told N.has result y ≡ empty kind }
{
    Nexts {
        nothing: kind == GroupKind::Sequence,
        first: names.none(),
        last: false,
        follow: names.none(),
    }
}

fn in_sequence<N: Names>(names: N, f: Nexts<N::Set>, g: Nexts<N::Set>) -> Nexts<N::Set>
    ensures { (y : ℕ) → told N.has result y ≡ join Sequence (told N.has f y) (told N.has g y) }
{
    let skipped = names.given(f.nothing, g.first);
    let after = names.given(f.last, g.first);
    let inner = names.union(f.follow, g.follow);
    Nexts {
        nothing: f.nothing & g.nothing,
        first: names.union(f.first, skipped),
        last: g.last | (g.nothing & f.last),
        follow: names.union(inner, after),
    }
}

fn in_choice<N: Names>(names: N, f: Nexts<N::Set>, g: Nexts<N::Set>) -> Nexts<N::Set>
    ensures { (y : ℕ) → told N.has result y ≡ join Choice (told N.has f y) (told N.has g y) }
{
    Nexts {
        nothing: f.nothing | g.nothing,
        first: names.union(f.first, g.first),
        last: f.last | g.last,
        follow: names.union(f.follow, g.follow),
    }
}

fn joined<N: Names>(names: N, kind: GroupKind, f: Nexts<N::Set>, g: Nexts<N::Set>) -> Nexts<N::Set>
    ensures { (y : ℕ) → told N.has result y ≡ join kind (told N.has f y) (told N.has g y) }
{
    match kind {
        GroupKind::Sequence => in_sequence(names, f, g),
        GroupKind::Choice => in_choice(names, f, g),
    }
}

fn quantified<N: Names>(names: N, q: Quantifier, f: Nexts<N::Set>) -> Nexts<N::Set>
    ensures { (y : ℕ) → told N.has result y ≡ quantify_facts q (told N.has f y) }
{
    let again = names.union(f.follow, names.given(f.last, f.first));
    match q {
        Quantifier::None => f,
        Quantifier::Qmark => Nexts { nothing: true, ..f },
        Quantifier::Star => Nexts {
            nothing: true,
            follow: again,
            ..f
        },
        Quantifier::Plus => Nexts { follow: again, ..f },
    }
}

fn one_element<N: Names>(names: N, i: usize, x: usize) -> Nexts<N::Set>
    ensures { (y : ℕ) → N.Tells names y → told N.has result y ≡ single numbers i x y }
{
    Nexts {
        nothing: false,
        first: names.only(i),
        last: x == i,
        follow: names.none(),
    }
}

// The facts of the particle of depth d that t begins with, from those of its members, one deeper.
#[cycle(nexts_from_first_nexts)]
fn first_nexts<N: Names>(names: N, t: &[u8], d: usize, x: usize) -> Nexts<N::Set>
    requires { (d < 256) × (particle_size ≤ length t.now) }
    ensures { (y : ℕ) → N.Tells names y → told N.has result y ≡ first_facts d t.now x y }
{
    let p = read_particle(t, 0);
    let once = match p.what {
        What::Element(i) => one_element(names, i, x),
        What::Group(kind, _) => nexts_from(names, &t[PARTICLE_SIZE..], d + 1, kind, x),
    };
    quantified(names, p.quantifier, once)
}

/// The facts of the members of depth d that s begins with, in a group of a kind, where the last child is x. What is
/// deeper belongs to them; the first that is less deep ends them.
#[cycle(nexts_from_first_nexts)]
pub fn nexts_from<N: Names>(
    names: N,
    s: &[u8],
    d: usize,
    kind: GroupKind,
    x: usize,
) -> Nexts<N::Set>
    requires { d ≤ 256 }
    ensures { (y : ℕ) → N.Tells names y → told N.has result y ≡ facts numbers kind (members_from d s.now) x y }
{
    let mut f = no_members(names, kind);
    for (i, particle) in s.chunks_exact(PARTICLE_SIZE).enumerate() {
        let depth = layout::particle_depth(particle) as usize;
        if depth < d {
            return f;
        }
        if depth == d {
            // its members stand after it
            let from = &s[PARTICLE_SIZE * i..];
            f = joined(names, kind, f, first_nexts(names, from, d, x));
        }
    }
    f
}

/// One name, and a set of it is whether it is there.
#[derive(Clone, Copy)]
pub struct OneName(pub usize);

impl Names for OneName {
    type Set = bool;

    ghost Tells = { λ names y. y ≡ names.0 };

    ghost has = { λ there y. there };

    fn none(self) -> bool {
        false
    }

    fn only(self, i: usize) -> bool {
        self.0 == i
    }

    fn union(self, a: bool, b: bool) -> bool {
        a | b
    }

    fn given(self, there: bool, a: bool) -> bool {
        there & a
    }
}

/// The facts of the members of depth d that s begins with, in a group of a kind, and of two definition indices.
// The one place where these become the Facts of the rules: a From would be longer.
pub fn facts_from(s: &[u8], d: usize, kind: GroupKind, x: usize, y: usize) -> Facts
    requires { d ≤ 256 }
    ensures { result ≡ facts numbers kind (members_from d s.now) x y }
{
    let of = nexts_from(OneName(y), s, d, kind, x);
    Facts {
        nothing: of.nothing,
        first: of.first,
        last: of.last,
        follow: of.follow,
    }
}

/// The facts of a whole model and two definition indices.
pub fn facts(ms: &[u8], x: usize, y: usize) -> Facts
    ensures { result ≡ facts numbers Sequence (all_members ms.now) x y }
{
    facts_from(ms, 0, GroupKind::Sequence, x, y)
}

/// Whether the child y may come after `last`: 0 is no child yet, i + 1 the child with definition index i.
pub fn steps(ms: &[u8], last: usize, y: usize) -> bool
    ensures { result ≡ steps (all_members ms.now) last y }
{
    if last == 0 {
        return facts(ms, y, y).first;
    }
    facts(ms, last - 1, y).follow
}

/// Whether no child is owed after `last`.
pub fn finishes(ms: &[u8], last: usize) -> bool
    ensures { result ≡ finishes (all_members ms.now) last }
{
    if last == 0 {
        return facts(ms, 0, 0).nothing;
    }
    facts(ms, last - 1, last - 1).last
}
