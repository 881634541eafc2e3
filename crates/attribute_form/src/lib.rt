//! The form of a store as its bytes, and where an attribute stands in them.
#![tactic(auto)]

ghost use Rattle.std.specs.Prelude.{◌≡◌, true, ◌≤◌};
ghost use Rattle.rules.specs.Decode.{read_attribute};
ghost use Rattle.rules.specs.Passing.{passes};
ghost use Rattle.layout.specs.Bodies.{width_of};
ghost use Rattle.lookup.specs.Bodies.{bodies_of};
ghost use Rattle.store_laws.specs.Forms.{form_bytes};
ghost use Rattle.attribute_form.specs.Attributes.{AttributeStands, UpTo, To};

// 1 if the attribute is of one of the definitions up to `owner`.
fn is_up_to(rec: &[u8], owner: u32) -> usize
    ensures { UpTo owner (read_attribute rec.now) result }
{
    let of = layout::owner_byte(rec) as u32;
    if of <= owner { 1 } else { 0 }
}

/// How many attributes the definitions up to `owner` have: where a new one of it comes.
pub fn attributes_to(store: &[u8], owner: u32) -> usize
    ensures { To owner (bodies_of store.now).attributes result }
{
    let w = layout::width_in(store);
    let count = layout::attribute_count(store);
    let attrs = layout::attributes_of(store);
    let mut sum = 0;
    for i in 0..count {
        sum += is_up_to(layout::attribute_at(w, attrs, i), owner);
    }
    sum
}

/// The bytes of definitions, particles and attributes.
pub fn form_of(store: &[u8]) -> &[u8]
    requires { passes store.now ≡ true }
    ensures { result.now ≡ form_bytes (width_of store.now) (bodies_of store.now) }
{
    let start = layout::header_size();
    let end = lookup::row_start(store);
    layout::window(store, start, end - start)
}

/// Where attribute i stands in them.
pub fn place_of(store: &[u8], i: usize) -> usize
    requires { i ≤ 64 }
    ensures { AttributeStands (width_of store.now) (bodies_of store.now) i result }
{
    let w = layout::width_in(store);
    let definitions = layout::definition_count(store);
    let particles = layout::particle_count(store);
    layout::through_attributes(w, definitions, particles, i) - layout::header_size()
}
