//! Which refusal of change 3, which inserts an element into a model, applies to a store that passes, or the place. The
//! quantifier comes as the `u32` that a caller in C gives, as one that is no code is refused here.
#![tactic(auto)]

ghost use Rattle.std.specs.Prelude.{◌≡◌, true, not, ◌&&◌, ◌<◌};
ghost use Rattle.rules.specs.declared.GroupKind.TheVariants.{Sequence};
ghost use Rattle.rules.specs.Decode.{definition_count};
ghost use Rattle.rules.specs.Given.{number_given};
ghost use Rattle.rules.specs.Passing.{passes};
ghost use Rattle.rules.specs.Edit.{same_kind};
ghost use Rattle.rules.specs.Change.{insert_element};
ghost use Rattle.rules.specs.Refusal.{first, conditions};
ghost use Rattle.store_laws.specs.Stores.{store_in};
ghost use Rattle.model_places.specs.Placing.{model_in, found_by, Finds};
ghost use Rattle.insert_refusals.specs.Inserting.{model_conditions, place_conditions};

use model::place::{Found, Holder};
use rules::{GroupKind, Kind, Quantifier, Refusal};

// From row 9 on. `needed`: NONE or PLUS; `unfilled`: the default is empty; `off`: the place is in a LIST off the spine.
fn model_refusal(
    store: &[u8],
    o: usize,
    i: usize,
    needed: bool,
    unfilled: bool,
    off: bool,
) -> Result<(), Refusal>
    requires { (passes store.now ≡ true) × (o < definition_count store.now) × (i < definition_count store.now) }
    ensures { number_given result ≡ first (model_conditions o i needed unfilled off (store_in store.now)) }
{
    if form_index::content_kind(layout::definitions_of(store), o) != Kind::Complex {
        return Err(Refusal::WrongKind);
    }
    if model_reach::in_model(store, o, i) {
        return Err(Refusal::InUse);
    }
    if model_reach::comes_round(store, o, i) {
        return Err(Refusal::Round);
    }
    if needed & unfilled {
        return Err(Refusal::Default);
    }
    if !(needed & off) {
        return Ok(());
    }
    instance_search::instance_refusal(store, o as u32, Refusal::OffSpine)
}

// Whether a list is a LIST off the spine.
fn off_spine(h: Holder) -> bool
    ensures { result ≡ (same_kind h.kind Sequence && not h.spine) }
{
    h.kind == GroupKind::Sequence && !h.spine
}

// From row 8 on, or the place.
fn place_refusal(
    store: &[u8],
    o: usize,
    place: &[u32],
    i: usize,
    needed: bool,
    unfilled: bool,
) -> Result<Found, Refusal>
    requires { (passes store.now ≡ true) × (o < definition_count store.now) × (i < definition_count store.now) }
    ensures { (number_given result
        ≡ first (place_conditions (found_by true place.now (model_in store.now o)) o i needed unfilled (store_in store.now)))
        × Finds store.now o true place.now result }
{
    let part = model_places::own_part(store, o);
    let gap = place_lookup::find(part, place, true).ok_or(Refusal::NoPlace)?;
    model_refusal(store, o, i, needed, unfilled, off_spine(gap.holder))?;
    Ok(gap)
}

/// Refusals 3, 4, 6 and 8 to 13 of the change that inserts an element, or the place.
pub fn insert_element_refusal(
    store: &[u8],
    owner: u32,
    place: &[u32],
    definition: u32,
    quantifier: u32,
    text: &[u8],
) -> Result<Found, Refusal>
    requires { passes store.now ≡ true }
    ensures { (number_given result
        ≡ first (conditions (insert_element owner place.now definition quantifier text.now) (store_in store.now)))
        × Finds store.now owner true place.now result }
{
    let w = layout::width_in(store);
    if !records::is_value(w, text) {
        return Err(Refusal::BadValue);
    }
    let mark = Quantifier::try_from(quantifier)?;
    let n = layout::definition_count(store);
    let o = owner as usize;
    let i = definition as usize;
    if o >= n {
        return Err(Refusal::Unknown);
    }
    if i >= n {
        return Err(Refusal::Unknown);
    }
    let needed = !model::skips(mark);
    place_refusal(store, o, place, i, needed, text.len() == 0)
}
