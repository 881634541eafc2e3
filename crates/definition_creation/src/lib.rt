//! A store with a definition more, the last: the other bodies stay as they are.
#![tactic(auto)]

ghost use Rattle.std.specs.Prelude.{◌≡◌, true, ◌≤◌, length};
ghost use Rattle.rules.specs.Layout.{name_width, flat_bytes};
ghost use Rattle.rules.specs.Passing.{passes};
ghost use Rattle.codec.specs.Laid.{Laid};
ghost use Rattle.layout.specs.Bodies.{width_of};
ghost use Rattle.lookup.specs.Bodies.{bodies_of};
ghost use Rattle.definition_creation.specs.Bodies.{created};

/// Writes the store with a definition more. The kind is the `u32` that the call was given.
pub fn put_created(store: &[u8], name: &[u8], kind: u32, out: &mut [u8]) -> usize
    requires { (passes store.now ≡ true) × (length name.now ≤ name_width) × (kind ≤ 2) }
    ensures { Laid (flat_bytes (width_of store.now) (created name.now kind (bodies_of store.now))) out.old 0 result out.new }
{
    let d = layout::definition_count(store);
    let p = layout::particle_count(store);
    let a = layout::attribute_count(store);
    let rest = layout::through_definitions(d);
    let first = definition_writer::put_header(store, d + 1, p, a, out);
    let second = codec::put(layout::definitions_of(store), out, first);
    let third = layout_writer::put_definition(name, kind as u8, 0, out, second);
    codec::put(codec::after(store, rest), out, third)
}
