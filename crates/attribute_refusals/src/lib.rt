//! Which refusal of the changes 9 and 10 applies to a store that passes. A sort comes as the `u32` that a caller in C
//! gives, as one that is no code is refused here.
#![tactic(auto)]

ghost use Rattle.std.specs.Prelude.{◌≡◌, true};
ghost use Rattle.rules.specs.Given.{number_given};
ghost use Rattle.rules.specs.Bytes.{any};
ghost use Rattle.rules.specs.Decode.{read_attribute};
ghost use Rattle.rules.specs.Passing.{passes};
ghost use Rattle.rules.specs.Change.{add_attribute, destroy_attribute};
ghost use Rattle.rules.specs.Refusal.{first, conditions};
ghost use Rattle.lookup.specs.Bodies.{bodies_of};
ghost use Rattle.store_laws.specs.Stores.{store_in};
ghost use Rattle.attribute_refusals.specs.OwnAttributes.{own_named};

use rules::{AttributeSort, Refusal};

// Whether a record is that of an owner's attribute with a name.
fn is_own(rec: &[u8], owner: u32, name: &[u8]) -> bool
    ensures { result ≡ own_named owner name.now (read_attribute rec.now) }
{
    let same = codec::equal(name, layout::attribute_name(rec));
    (layout::attribute_owner(rec) == owner as usize) & same
}

// Whether an owner has an attribute with a name.
fn has_attribute(store: &[u8], owner: u32, name: &[u8]) -> bool
    ensures { result ≡ any (own_named owner name.now) (bodies_of store.now).attributes }
{
    let w = layout::width_in(store);
    let attrs = layout::attributes_of(store);
    let count = layout::attribute_count(store);
    for i in 0..count {
        if is_own(layout::attribute_at(w, attrs, i), owner, name) {
            return true;
        }
    }
    false
}

/// Refusals 2, 3, 4, 5, 6 and 12 of the change that adds an attribute.
pub fn add_attribute_refusal(
    store: &[u8],
    owner: u32,
    name: &[u8],
    sort: u32,
    value: &[u8],
) -> Result<(), Refusal>
    requires { passes store.now ≡ true }
    ensures { number_given result ≡ first (conditions (add_attribute owner name.now sort value.now) (store_in store.now)) }
{
    if !records::given_name(name) {
        return Err(Refusal::BadName);
    }
    let w = layout::width_in(store);
    if !records::is_value(w, value) {
        return Err(Refusal::BadValue);
    }
    let sort = AttributeSort::try_from(sort)?;
    if has_attribute(store, owner, name) {
        return Err(Refusal::Taken);
    }
    if owner as usize >= layout::definition_count(store) {
        return Err(Refusal::Unknown);
    }
    if !records::is_fill(sort, value) {
        return Err(Refusal::Default);
    }
    Ok(())
}

/// Refusal 6 of the change that destroys an attribute.
pub fn destroy_attribute_refusal(store: &[u8], attribute: u32) -> Result<(), Refusal>
    requires { passes store.now ≡ true }
    ensures { number_given result ≡ first (conditions (destroy_attribute attribute) (store_in store.now)) }
{
    if attribute as usize >= layout::attribute_count(store) {
        return Err(Refusal::Unknown);
    }
    Ok(())
}
