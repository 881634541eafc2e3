//! Which refusal of the changes 5 and 8 applies to a store that passes, or the place. A quantifier comes as the `u32`
//! that a caller in C gives, as one that is no code is refused here.
#![tactic(auto)]

ghost use Rattle.std.specs.Prelude.{◌≡◌, true, false, IfOk};
ghost use Rattle.rules.specs.Quantifiers.{many, gains, cuts};
ghost use Rattle.rules.specs.Decode.{quantifier_of};
ghost use Rattle.rules.specs.Given.{number_given};
ghost use Rattle.rules.specs.Passing.{passes};
ghost use Rattle.rules.specs.Refusal.{first, conditions};
ghost use Rattle.store_laws.specs.Stores.{store_in};
ghost use Rattle.change_laws.specs.FirstCondition.{Gives};
ghost use Rattle.instance_search.specs.Instances.{has_instance};
ghost use Rattle.model_places.specs.Placing.{Finds};
ghost use Rattle.quantifier_refusals.specs.Requantifying.{is_off, early_tests, quantifier_tests, requantify};

use model::What;
use model::place::Found;
use rules::{Quantifier, Refusal};

fn many(q: Quantifier) -> bool
    ensures { result ≡ many q }
{
    matches!(q, Quantifier::Star | Quantifier::Plus)
}

/// Whether a new quantifier gains.
pub fn gains(old: Quantifier, new: Quantifier) -> bool
    ensures { result ≡ gains old new }
{
    !model::skips(new) & model::skips(old)
}

/// Whether a new quantifier cuts.
pub fn cuts(old: Quantifier, new: Quantifier) -> bool
    ensures { result ≡ cuts old new }
{
    many(old) & !many(new)
}

// Whether a new quantifier does not go with instances.
fn is_off(spine: bool, old: Quantifier, new: Quantifier, group: bool) -> bool
    ensures { result ≡ is_off spine old new group }
{
    (!model::relaxes(old, new) & !spine) | (group & cuts(old, new))
}

// Refusals 3, 4 and 6 of a new quantifier, or the quantifier.
fn early_refusal(
    store: &[u8],
    owner: u32,
    quantifier: u32,
    text: &[u8],
) -> Result<Quantifier, Refusal>
    ensures { Gives (number_given result) (early_tests owner quantifier text.now store.now)
        × IfOk result (λ new. new ≡ quantifier_of quantifier) }
{
    let w = layout::width_in(store);
    if !records::is_value(w, text) {
        return Err(Refusal::BadValue);
    }
    let new = Quantifier::try_from(quantifier)?;
    if owner as usize >= layout::definition_count(store) {
        return Err(Refusal::Unknown);
    }
    Ok(new)
}

// Refusals 12 and 13 of a new quantifier.
fn quantifier_at(
    store: &[u8],
    owner: u32,
    spine: bool,
    old: Quantifier,
    new: Quantifier,
    text: &[u8],
    group: bool,
) -> Result<(), Refusal>
    ensures { Gives (number_given result) (quantifier_tests (has_instance store.now owner) spine old new text.now group) }
{
    if gains(old, new) & (text.len() == 0) {
        return Err(Refusal::Default);
    }
    if !is_off(spine, old, new, group) {
        return Ok(());
    }
    instance_search::instance_refusal(store, owner, Refusal::OffSpine)
}

/// Refusals 3, 4, 6, 8, 12 and 13 of the change of the quantifier of a group, or else of an element; or the place.
pub fn requantify_refusal(
    store: &[u8],
    owner: u32,
    place: &[u32],
    quantifier: u32,
    text: &[u8],
    group: bool,
) -> Result<Found, Refusal>
    requires { passes store.now ≡ true }
    ensures { (number_given result ≡ first (conditions (requantify group owner place.now quantifier text.now) (store_in store.now)))
        × Finds store.now owner false place.now result }
{
    let new = early_refusal(store, owner, quantifier, text)?;
    let x = model_places::pick(store, owner, place).ok_or(Refusal::NoPlace)?;
    let is_group = match x.member.what {
        What::Element(_) => false,
        What::Group(_, _) => true,
    };
    if is_group != group {
        return Err(Refusal::NoPlace);
    }
    quantifier_at(
        store,
        owner,
        x.place.holder.spine,
        x.member.quantifier,
        new,
        text,
        group,
    )?;
    Ok(x.place)
}
