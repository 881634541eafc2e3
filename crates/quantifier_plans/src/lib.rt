//! The plans of changes 5 and 8: the quantifier of an element, and of a group.
#![tactic(auto)]

ghost use Rattle.std.specs.Prelude.{◌≡◌, ◌≤◌};
ghost use Rattle.model_form.specs.Editing.{start_in};
ghost use Rattle.quantifier_plans.specs.Quantifying.{Stands, group_span, element_plan, group_plan, new_plan};

use filling::Filling;
use model::place::Holder;
use row_walk::Plan;
use rules::Quantifier;

// The plan of change 5 for the element at particle p of the list h in the owner's part.
fn element_plan(part: &[u8], owner: usize, h: Holder, p: usize, new: Quantifier) -> Plan
    requires { Stands part.now h p }
    ensures { result ≡ element_plan owner part.now h p new }
{
    let from = layout::particles_from(part, p);
    let x = model::read_particle(from, 0);
    let old = x.quantifier;
    let index = layout::particle_index(from) as usize;
    let cut = h.spine & quantifier_refusals::cuts(old, new);
    let gain = h.spine & quantifier_refusals::gains(old, new);
    let marks = place_marks::marks(part, p, 1);
    plans::requantify_plan(owner, marks, cut, index, gain, Filling::Definition(index))
}

// How many particles the group at particle p of the list h has, with its own.
fn group_span(part: &[u8], h: Holder, p: usize) -> usize
    requires { Stands part.now h p }
    ensures { (result ≡ group_span part.now h p) × (result ≤ 257) }
{
    1 + place_lookup::span(layout::particles_from(part, p + 1), h.depth)
}

// The plan of change 8 for the group at particle p of the list h in the owner's part.
fn group_plan(store: &[u8], part: &[u8], owner: usize, h: Holder, p: usize, new: Quantifier) -> Plan
    requires { Stands part.now h p × (owner ≤ 256) }
    ensures { result ≡ group_plan (start_in store.now owner) owner part.now h p new }
{
    let x = model::read_particle(layout::particles_from(part, p), 0);
    let old = x.quantifier;
    let what = x.what;
    let gain = h.spine & quantifier_refusals::gains(old, new);
    let before = form_index::particles_before(layout::definitions_of(store), owner);
    let marks = place_marks::marks(part, p, group_span(part, h, p));
    let filling = Filling::Particles(model::kind_in(what), before + p + 1, h.depth + 1);
    plans::requantify_plan(owner, marks, false, 0, gain, filling)
}

/// The plan of a new quantifier for the group, or else the element, at particle p of the list h in the owner's part.
// `group` stays a flag: calls 5 and 8 share the rest of their code and differ in it alone.
pub fn new_plan(
    store: &[u8],
    part: &[u8],
    owner: usize,
    h: Holder,
    p: usize,
    new: Quantifier,
    group: bool,
) -> Plan
    requires { Stands part.now h p × (owner ≤ 256) }
    ensures { result ≡ new_plan group (start_in store.now owner) owner part.now h p new }
{
    if group {
        return group_plan(store, part, owner, h, p, new);
    }
    element_plan(part, owner, h, p, new)
}
