//! The plans of changes 9 and 10, which add and destroy an attribute.
#![tactic(auto)]

ghost use Rattle.std.specs.Prelude.{◌≡◌, ◌<◌, length};
ghost use Rattle.rules.specs.Layout.{sort_code};
ghost use Rattle.lookup.specs.Bodies.{bodies_of};
ghost use Rattle.plans.specs.AttributeCalls.{owner_at, add_attribute_plan, destroy_attribute_plan};

use row_walk::Plan;
use rules::AttributeSort;

/// 9: the plan for a new attribute of a sort, which comes at i.
pub fn adding_plan(store: &[u8], owner: u32, i: usize, sort: AttributeSort) -> Plan
    ensures { result ≡ add_attribute_plan (bodies_of store.now).version owner i (sort_code sort) }
{
    let version = layout::version_in(store);
    plans::add_attribute_plan(version, owner as usize, i, sort)
}

// As in document_rows, on which this crate does not stand: three calls are no reason to.
fn owner_of(store: &[u8], attribute: usize) -> usize
    requires { (attribute < length (bodies_of store.now).attributes) × (attribute < 64) }
    ensures { result ≡ owner_at attribute (bodies_of store.now).attributes }
{
    let w = layout::width_in(store);
    let attrs = layout::attributes_of(store);
    layout::attribute_owner_at(w, attrs, attribute)
}

/// 10: the plan for an attribute.
pub fn destroying_plan(store: &[u8], attribute: usize) -> Plan
    requires { (attribute < length (bodies_of store.now).attributes) × (attribute < 64) }
    ensures { result ≡ destroy_attribute_plan (owner_at attribute (bodies_of store.now).attributes) attribute }
{
    plans::destroy_attribute_plan(owner_of(store, attribute), attribute)
}
