//! Which refusal of changes 1 and 2 applies to a store that passes. A kind comes as the `u32` that a caller in C
//! gives, as one that is no code is refused here.
#![tactic(auto)]

ghost use Rattle.std.specs.Prelude.{◌≡◌, true};
ghost use Rattle.rules.specs.Passing.{passes};
ghost use Rattle.rules.specs.Change.{create_definition, destroy_definition};
ghost use Rattle.rules.specs.Given.{number_given};
ghost use Rattle.rules.specs.Refusal.{first, conditions};
ghost use Rattle.layout.specs.Bodies.{width_of};
ghost use Rattle.lookup.specs.Bodies.{bodies_of};
ghost use Rattle.store_laws.specs.Stores.{store_in};
ghost use Rattle.definition_creation.specs.Bodies.{created};
ghost use Rattle.definition_removal.specs.Bodies.{Defined, destroyed};
ghost use Rattle.call_laws.specs.Limits.{Limit};

use rules::{Kind, Refusal};

/// Refused by the first condition of change 1 that holds.
pub fn create_condition(store: &[u8], name: &[u8], kind: u32) -> Result<(), Refusal>
    requires { passes store.now ≡ true }
    ensures { number_given result ≡ first (conditions (create_definition name.now kind) (store_in store.now)) }
{
    if !records::given_name(name) {
        return Err(Refusal::BadName);
    }
    Kind::try_from(kind)?;
    if definition_writer::name_exists(store, name) {
        return Err(Refusal::Taken);
    }
    Ok(())
}

/// Refused by the first limit that change 1 passes.
pub fn create_limit(store: &[u8], name: &[u8], kind: u32, room: usize) -> Result<(), Refusal>
    requires { passes store.now ≡ true }
    ensures { Limit (width_of store.now) room (created name.now kind (bodies_of store.now)) (number_given result) }
{
    if layout::definition_count(store) >= layout::MAX_DEFINITIONS {
        return Err(Refusal::Ceiling);
    }
    if store.len() + layout::definition_size() > room {
        return Err(Refusal::Buffer);
    }
    Ok(())
}

/// Refused by the first condition of change 2 that holds.
pub fn destroy_condition(store: &[u8], i: u32) -> Result<(), Refusal>
    requires { passes store.now ≡ true }
    ensures { number_given result ≡ first (conditions (destroy_definition i) (store_in store.now)) }
{
    if i as usize >= layout::definition_count(store) {
        return Err(Refusal::Unknown);
    }
    let w = layout::width_in(store);
    let particles = layout::particle_count(store);
    let rows = layout::row_count(store);
    let in_model = definition_removal::has_member(layout::particles_of(store), particles, i);
    let in_root = definition_removal::has_root(w, layout::rows_of(store), rows, i);
    if in_model | in_root {
        return Err(Refusal::InUse);
    }
    Ok(())
}

/// Refused if the store without definition i is longer than the room.
pub fn destroy_limit(store: &[u8], i: u32, room: usize) -> Result<(), Refusal>
    requires { Defined store.now i }
    ensures { Limit (width_of store.now) room (destroyed i (bodies_of store.now)) (number_given result) }
{
    let w = layout::width_in(store);
    let d = layout::definition_count(store);
    let p = definition_removal::particles_left(store, i);
    let a = definition_removal::attributes_left(store, i);
    let r = layout::row_count(store);
    if layout::through_rows(w, d - 1, p, a, r) > room {
        return Err(Refusal::Buffer);
    }
    Ok(())
}
