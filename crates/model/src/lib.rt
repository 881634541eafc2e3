//! Content models: a definition's part of the particle body.
#![tactic(auto)]

pub mod place;

ghost use Rattle.std.specs.Prelude.{◌≡◌, ◌≤◌, length, drop};
ghost use Rattle.rules.specs.Decode.{read_particle};
ghost use Rattle.rules.specs.Model.{skips};
ghost use Rattle.rules.specs.Quantifiers.{relaxes};
ghost use Rattle.model.specs.Particle.{particle_of, kind_in};

use rules::{GroupKind, Quantifier};

/// An element, by its definition's index, or a group with the number of its direct members.
#[derive(Clone, Copy)]
pub enum What {
    Element(usize),
    Group(GroupKind, usize),
}

#[derive(Clone, Copy)]
pub struct Particle {
    pub what: What,
    pub quantifier: Quantifier,
}

/// A group's kind; an element counts as a LIST.
pub fn kind_in(what: What) -> GroupKind
    ensures { result ≡ kind_in what }
{
    match what {
        What::Element(_) => GroupKind::Sequence,
        What::Group(kind, _) => kind,
    }
}

/// The particle at byte `at`.
pub fn read_particle(s: &[u8], at: usize) -> Particle
    requires { at ≤ length s.now }
    ensures { result ≡ particle_of (read_particle (drop at s.now)) }
{
    let rec = &s[at..];
    let index = layout::particle_index(rec) as usize;
    let what = match layout::group_kind_of(rec) {
        None => What::Element(index),
        Some(kind) => What::Group(kind, index),
    };
    let quantifier = Quantifier::from(layout::particle_quantifier(rec));
    Particle { what, quantifier }
}

/// Whether a member with this quantifier may be left out.
pub fn skips(q: Quantifier) -> bool
    ensures { result ≡ skips q }
{
    matches!(q, Quantifier::Qmark | Quantifier::Star)
}

/// Whether every number allowed before is allowed after.
pub fn relaxes(old: Quantifier, new: Quantifier) -> bool
    ensures { result ≡ relaxes old new }
{
    match old {
        Quantifier::None => true,
        Quantifier::Qmark => matches!(new, Quantifier::Qmark | Quantifier::Star),
        Quantifier::Star => new == Quantifier::Star,
        Quantifier::Plus => matches!(new, Quantifier::Star | Quantifier::Plus),
    }
}
