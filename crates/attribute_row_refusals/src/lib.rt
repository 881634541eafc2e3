//! Which refusal of the changes 14 and 15, of the row of an attribute, applies to a store that passes.
#![tactic(auto)]

ghost use Rattle.std.specs.Prelude.{◌≡◌, true, IfOk};
ghost use Rattle.rules.specs.Passing.{passes};
ghost use Rattle.rules.specs.Change.{set_attribute, destroy_attribute_row};
ghost use Rattle.rules.specs.Given.{number_given};
ghost use Rattle.rules.specs.Refusal.{first, conditions};
ghost use Rattle.store_laws.specs.Stores.{store_in};
ghost use Rattle.document_rows.specs.Finding.{ElementRowAt};
ghost use Rattle.attribute_row_refusals.specs.Refused.{AttributeRefused};

use rules::Refusal;

// Refusals 6 and 7 of an attribute of an element; else the number of the element's row.
fn attribute_refusal(store: &[u8], element: u32, attribute: u32) -> Result<usize, Refusal>
    requires { passes store.now ≡ true }
    ensures refused { AttributeRefused element attribute (store_in store.now) (number_given result) }
    ensures row { IfOk result (λ i. ElementRowAt store.now element (Some i)) }
{
    if attribute as usize >= layout::attribute_count(store) {
        return Err(Refusal::Unknown);
    }
    let i = document_rows::find_element(store, element).ok_or(Refusal::NoRow)?;
    let owner = document_rows::owner_of(store, attribute as usize);
    if owner != document_rows::row_definition(store, i) {
        return Err(Refusal::Unknown);
    }
    Ok(i)
}

/// Refusals 3, 6, 7 and 15 of the change that sets an attribute.
pub fn set_attribute_refusal(
    store: &[u8],
    element: u32,
    attribute: u32,
    value: &[u8],
) -> Result<(), Refusal>
    requires { passes store.now ≡ true }
    ensures { number_given result ≡ first (conditions (set_attribute element attribute value.now) (store_in store.now)) }
{
    let w = layout::width_in(store);
    if !records::is_value(w, value) {
        return Err(Refusal::BadValue);
    }
    attribute_refusal(store, element, attribute)?;
    let attrs = layout::attributes_of(store);
    if !form_index::value_may(w, attrs, attribute as usize, value) {
        return Err(Refusal::NoMatch);
    }
    Ok(())
}

/// Refusals 6, 7 and 15 of the change that destroys an attribute row.
pub fn destroy_attribute_row_refusal(
    store: &[u8],
    element: u32,
    attribute: u32,
) -> Result<(), Refusal>
    requires { passes store.now ≡ true }
    ensures { number_given result ≡ first (conditions (destroy_attribute_row element attribute) (store_in store.now)) }
{
    let i = attribute_refusal(store, element, attribute)?;
    document_rows::attribute_row_serial(store, i, attribute as usize).ok_or(Refusal::NoRow)?;
    let version = layout::version_in(store);
    let w = layout::width_in(store);
    let attrs = layout::attributes_of(store);
    let d = document_rows::row_definition(store, i);
    if form_index::needs(version, w, attrs, d, attribute as usize) {
        return Err(Refusal::NoMatch);
    }
    Ok(())
}
