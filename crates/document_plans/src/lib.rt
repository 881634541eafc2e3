//! The plans of changes 11 to 16, which change documents.
//! Plans are made of serials, as the rules make them, so that an element is looked for once more here.
#![tactic(auto)]

ghost use Rattle.std.specs.Prelude.{◌≡◌, true, false, unwrap_or};
ghost use Rattle.rules.specs.Passing.{passes};
ghost use Rattle.rules.specs.Refusal.{no_element};
ghost use Rattle.store_laws.specs.Stores.{store_in};
ghost use Rattle.plans.specs.CallPlans.{child_serial, attribute_serial, text_serial, add_document_plan, add_element_plan, destroy_element_plan};
ghost use Rattle.plans.specs.CallPlans.{set_attribute_plan, destroy_attribute_row_plan, set_text_plan};
ghost use Rattle.attribute_row_refusals.specs.Refused.{AttributeRefused};

use filling::Filling;
use row_walk::{Later, Plan, Which};

/// 11: the filling of a definition comes as the last document.
pub fn adding_document(definition: u32) -> Plan
    ensures { result ≡ add_document_plan definition }
{
    let filling = Filling::Definition(definition as usize);
    plans::filling_plan(Which::Ground, Later::Never, filling)
}

/// 12: the filling of a definition comes as child number `child` of an element.
pub fn adding_element(store: &[u8], parent: u32, child: u32, definition: u32) -> Plan
    requires { (passes store.now ≡ true) × (no_element parent (store_in store.now) ≡ false) }
    ensures { result ≡ add_element_plan parent (child_serial parent child (store_in store.now)) definition }
{
    // In a plan the serial 0 is that of no row.
    let row = document_rows::child_serial(store, parent, child).unwrap_or(0);
    let filling = Filling::Definition(definition as usize);
    plans::filling_plan(Which::Serial(parent), Later::Row(row), filling)
}

/// 13: an element goes, wherever it stands.
pub fn destroying_element(element: u32) -> Plan
    ensures { result ≡ destroy_element_plan element }
{
    plans::taking_plan(Which::Everything, Which::Serial(element))
}

// The serial of the row of an attribute right below an element.
fn attribute_serial(store: &[u8], element: u32, attribute: u32) -> Option<u32>
    requires { (passes store.now ≡ true) × AttributeRefused element attribute (store_in store.now) 0 }
    ensures { unwrap_or result 0 ≡ attribute_serial element attribute (store_in store.now) }
{
    let i = document_rows::find_element(store, element)?;
    document_rows::attribute_row_serial(store, i, attribute as usize)
}

/// 14: the row of an attribute of an element gets the value; where there is none, one is made.
pub fn setting_attribute(store: &[u8], element: u32, attribute: u32) -> Plan
    requires { (passes store.now ≡ true) × AttributeRefused element attribute (store_in store.now) 0 }
    ensures { result ≡ set_attribute_plan element attribute (attribute_serial element attribute (store_in store.now)) }
{
    let row = attribute_serial(store, element, attribute).unwrap_or(0);
    plans::set_attribute_plan(element, attribute as usize, row)
}

/// 15: the row of an attribute of an element goes.
pub fn destroying_attribute_row(element: u32, attribute: u32) -> Plan
    ensures { result ≡ destroy_attribute_row_plan element attribute }
{
    let takes = Which::Attributes(attribute as usize);
    plans::taking_plan(Which::Serial(element), takes)
}

/// 16: the text row of an element gets the value.
pub fn setting_text(store: &[u8], element: u32) -> Plan
    requires { (passes store.now ≡ true) × (no_element element (store_in store.now) ≡ false) }
    ensures { result ≡ set_text_plan (text_serial element (store_in store.now)) }
{
    let row = document_rows::text_serial(store, element).unwrap_or(0);
    plans::setting_plan(row)
}
