//! Which refusal of the changes 11, 12, 13 and 16 applies to a store that passes.
#![tactic(auto)]

ghost use Rattle.std.specs.Prelude.{◌≡◌, true};
ghost use Rattle.rules.specs.Passing.{passes};
ghost use Rattle.rules.specs.Change.{add_document, add_element, destroy_element, set_text};
ghost use Rattle.rules.specs.Given.{number_given};
ghost use Rattle.rules.specs.Refusal.{first, conditions};
ghost use Rattle.store_laws.specs.Stores.{store_in};

use rules::{Kind, Refusal};

/// Refusals 3 and 6 of the change that adds a document.
pub fn add_document_refusal(store: &[u8], definition: u32, text: &[u8]) -> Result<(), Refusal>
    requires { passes store.now ≡ true }
    ensures { number_given result ≡ first (conditions (add_document definition text.now) (store_in store.now)) }
{
    let w = layout::width_in(store);
    if !records::is_value(w, text) {
        return Err(Refusal::BadValue);
    }
    if definition as usize >= layout::definition_count(store) {
        return Err(Refusal::Unknown);
    }
    Ok(())
}

/// Refusals 3, 7 and 9 of the change of a text.
pub fn set_text_refusal(store: &[u8], element: u32, text: &[u8]) -> Result<(), Refusal>
    requires { passes store.now ≡ true }
    ensures { number_given result ≡ first (conditions (set_text element text.now) (store_in store.now)) }
{
    let w = layout::width_in(store);
    if !records::is_value(w, text) {
        return Err(Refusal::BadValue);
    }
    let i = document_rows::find_element(store, element).ok_or(Refusal::NoRow)?;
    if document_rows::content_kind_at(store, i) != Kind::Pcdata {
        return Err(Refusal::WrongKind);
    }
    Ok(())
}

/// Refusals 7 and 15 of the change that destroys an element.
pub fn destroy_element_refusal(store: &[u8], element: u32) -> Result<(), Refusal>
    requires { passes store.now ≡ true }
    ensures { number_given result ≡ first (conditions (destroy_element element) (store_in store.now)) }
{
    document_rows::find_element(store, element).ok_or(Refusal::NoRow)?;
    let Some(i) = document_rows::find_parent(store, element) else {
        return Ok(());
    };
    if !document_rows::fits_at(store, i, 0, 0, element) {
        return Err(Refusal::NoMatch);
    }
    Ok(())
}

/// Refusals 3, 6, 7, 8 and 15 of the change that adds an element.
pub fn add_element_refusal(
    store: &[u8],
    parent: u32,
    child: u32,
    definition: u32,
    text: &[u8],
) -> Result<(), Refusal>
    requires { passes store.now ≡ true }
    ensures { number_given result ≡ first (conditions (add_element parent child definition text.now) (store_in store.now)) }
{
    add_document_refusal(store, definition, text)?;
    let i = document_rows::find_element(store, parent).ok_or(Refusal::NoRow)?;
    if !document_rows::has_place(store, i, child as usize) {
        return Err(Refusal::NoPlace);
    }
    if document_rows::content_kind_at(store, i) != Kind::Complex {
        return Err(Refusal::NoMatch);
    }
    if !document_rows::fits_at(store, i, child as usize + 1, definition as usize, 0) {
        return Err(Refusal::NoMatch);
    }
    Ok(())
}
