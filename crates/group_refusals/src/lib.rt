//! Which refusal of the changes 6 and 7 applies to a store that passes, or the place. A kind comes as the `u32` that a
//! caller in C gives, as one that is no code is refused here.
#![tactic(auto)]

ghost use Rattle.std.specs.Prelude.{◌≡◌, true, false, ◌||◌, not, [], ◌∷◌, ◌*◌, ◌≤◌, drop};
ghost use Rattle.rules.specs.Layout.{particle_size};
ghost use Rattle.rules.specs.Edit.{is_one};
ghost use Rattle.rules.specs.Given.{number_given};
ghost use Rattle.rules.specs.Passing.{passes};
ghost use Rattle.rules.specs.Change.{convert_to_group, flatten_group};
ghost use Rattle.rules.specs.Refusal.{◌if◌, first, conditions};
ghost use Rattle.model.specs.Members.{members_from};
ghost use Rattle.store_laws.specs.Stores.{store_in};
ghost use Rattle.change_laws.specs.FirstCondition.{Gives};
ghost use Rattle.model_places.specs.Placing.{Finds};
ghost use Rattle.group_refusals.specs.Grouping.{unlike_kind, convert_tests};

use model::What;
use model::place::{Found, Holder};
use rules::{GroupKind, Quantifier, Refusal};

// Whether n members of a list cannot be a group of a kind.
fn unlike(list: GroupKind, kind: GroupKind, n: usize) -> bool
    ensures { result ≡ unlike_kind list kind n }
{
    !(kind == list || n == 1)
}

// Refusal 14 of a group of n members that is flattened into a list.
fn flatten_at(list: GroupKind, q: Quantifier, kind: GroupKind, n: usize) -> Result<(), Refusal>
    ensures { Gives (number_given result) (14 if (not (is_one q) || unlike_kind list kind n) ∷ []) }
{
    if q != Quantifier::None || unlike(list, kind, n) {
        return Err(Refusal::Grouping);
    }
    Ok(())
}

// Refusals 8 and 14 of members from particle p of the list h on that become a group.
fn convert_at(part: &[u8], h: Holder, p: usize, count: u32, kind: GroupKind) -> Result<(), Refusal>
    requires { p ≤ 256 }
    ensures { Gives (number_given result) (convert_tests h.kind kind count (members_from h.depth (drop (particle_size * p) part.now))) }
{
    let n = model_places::count_members(layout::particles_from(part, p), h.depth);
    if (count == 0) | (count as usize > n) {
        return Err(Refusal::NoPlace);
    }
    if unlike(h.kind, kind, count as usize) {
        return Err(Refusal::Grouping);
    }
    Ok(())
}

/// Refusals 4, 6, 8 and 14 of the change that converts members into a group, or the place.
pub fn convert_to_group_refusal(
    store: &[u8],
    owner: u32,
    place: &[u32],
    count: u32,
    sort: u32,
) -> Result<Found, Refusal>
    requires { passes store.now ≡ true }
    ensures { (number_given result ≡ first (conditions (convert_to_group owner place.now count sort) (store_in store.now)))
        × Finds store.now owner false place.now result }
{
    let kind = GroupKind::try_from(sort)?;
    if owner as usize >= layout::definition_count(store) {
        return Err(Refusal::Unknown);
    }
    let part = model_places::own_part(store, owner as usize);
    let found = place_lookup::find(part, place, false).ok_or(Refusal::NoPlace)?;
    convert_at(part, found.holder, found.particle, count, kind)?;
    Ok(found)
}

/// Refusals 6, 8 and 14 of the change that flattens a group, or the place. It begins as the refusal of the change that
/// removes an element does: one function for both would have to say both changes' conditions, and is no plainer.
pub fn flatten_group_refusal(store: &[u8], owner: u32, place: &[u32]) -> Result<Found, Refusal>
    requires { passes store.now ≡ true }
    ensures { (number_given result ≡ first (conditions (flatten_group owner place.now) (store_in store.now)))
        × Finds store.now owner false place.now result }
{
    if owner as usize >= layout::definition_count(store) {
        return Err(Refusal::Unknown);
    }
    let x = model_places::pick(store, owner, place).ok_or(Refusal::NoPlace)?;
    let What::Group(kind, n) = x.member.what else {
        return Err(Refusal::NoPlace);
    };
    flatten_at(x.place.holder.kind, x.member.quantifier, kind, n)?;
    Ok(x.place)
}
