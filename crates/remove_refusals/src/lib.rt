//! Which refusal of change 4 applies to a store that passes, or the place.
#![tactic(auto)]

ghost use Rattle.std.specs.Prelude.{◌≡◌, true, false, ◌≤◌};
ghost use Rattle.rules.specs.declared.GroupKind.TheVariants.{Choice};
ghost use Rattle.rules.specs.Model.{nothing};
ghost use Rattle.rules.specs.Given.{number_given};
ghost use Rattle.rules.specs.Passing.{passes};
ghost use Rattle.rules.specs.Change.{remove_element};
ghost use Rattle.rules.specs.Refusal.{first, conditions};
ghost use Rattle.model.specs.Members.{members_from};
ghost use Rattle.store_laws.specs.Stores.{store_in};
ghost use Rattle.change_laws.specs.FirstCondition.{Gives};
ghost use Rattle.instance_search.specs.Instances.{has_instance};
ghost use Rattle.model_places.specs.Placing.{Finds};
ghost use Rattle.remove_refusals.specs.Removing.{choice_left, Removable, remove_tests};

use model::What;
use model::place::{Found, Holder};
use rules::{GroupKind, Refusal};

// Whether a CHOICE of the members of depth d that s begins with accepts nothing.
fn accepts_nothing(s: &[u8], d: usize) -> bool
    requires { d ≤ 256 }
    ensures { result ≡ nothing Choice (members_from d s.now) }
{
    let f = automaton::facts_from(s, d, GroupKind::Choice, 0, 0);
    f.nothing
}

// Whether the inner CHOICE whose members start at a particle accepts
// nothing without the element at particle p, of depth d.
fn choice_left(part: &[u8], start: usize, p: usize, d: usize) -> bool
    requires { (1 ≤ start) × (start ≤ p) × (p ≤ 256) × (d ≤ 256) }
    ensures { result ≡ choice_left part.now start p d }
{
    let x = model::read_particle(layout::particles_from(part, start - 1), 0);
    let q = x.quantifier;
    let long = layout::times(layout::particle_size(), p - start);
    let before = accepts_nothing(
        layout::window(layout::particles_from(part, start), 0, long),
        d,
    );
    let after = accepts_nothing(layout::particles_from(part, p + 1), d);
    (model::skips(q) | before) | after
}

// Refusals 14 and 15 of the element at particle p of the list h.
fn remove_at(store: &[u8], owner: u32, part: &[u8], h: Holder, p: usize) -> Result<(), Refusal>
    requires { Removable part.now h p }
    ensures { Gives (number_given result) (remove_tests (has_instance store.now owner) part.now h p) }
{
    let from = layout::particles_from(part, p);
    let d = layout::particle_depth(from) as usize;
    let n = model_places::count_members(from, d);
    if (d > 0) & (p == h.start) & (n == 1) {
        return Err(Refusal::Grouping);
    }
    if h.kind == GroupKind::Sequence {
        return Ok(());
    }
    if choice_left(part, h.start, p, d) {
        return Ok(());
    }
    instance_search::instance_refusal(store, owner, Refusal::NoMatch)
}

/// Refusals 6, 8, 14 and 15 of the change that removes an element, or the place.
pub fn remove_element_refusal(store: &[u8], owner: u32, place: &[u32]) -> Result<Found, Refusal>
    requires { passes store.now ≡ true }
    ensures { (number_given result ≡ first (conditions (remove_element owner place.now) (store_in store.now)))
        × Finds store.now owner false place.now result }
{
    if owner as usize >= layout::definition_count(store) {
        return Err(Refusal::Unknown);
    }
    let part = model_places::own_part(store, owner as usize);
    let x = model_places::pick(store, owner, place).ok_or(Refusal::NoPlace)?;
    let What::Element(_) = x.member.what else {
        return Err(Refusal::NoPlace);
    };
    remove_at(store, owner, part, x.place.holder, x.place.particle)?;
    Ok(x.place)
}
