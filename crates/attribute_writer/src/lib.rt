//! The bytes of a form with an attribute more or less.
#![tactic(auto)]

ghost use Rattle.std.specs.Prelude.{◌≤◌, length};
ghost use Rattle.rules.specs.Layout.{sort_code};
ghost use Rattle.codec.specs.Laid.{Laid};
ghost use Rattle.layout.specs.Bodies.{width_of};
ghost use Rattle.lookup.specs.Bodies.{bodies_of};
ghost use Rattle.store_laws.specs.Forms.{form_bytes};
ghost use Rattle.plans.specs.AttributeCalls.{attribute_added, attribute_dropped};
ghost use Rattle.attribute_writer.specs.Attributes.{new_entry, Addable, Droppable};

use rules::AttributeSort;

/// Writes the form with a new attribute before attribute i.
pub fn put_added(
    store: &[u8],
    i: usize,
    owner: u32,
    name: &[u8],
    sort: AttributeSort,
    value: &[u8],
    out: &mut [u8],
) -> usize
    requires { Addable store.now owner name.now (sort_code sort) value.now × (i ≤ length (bodies_of store.now).attributes) × (i ≤ 64) }
    ensures { Laid
        (form_bytes (width_of store.now)
        (attribute_added i (new_entry owner name.now (sort_code sort) value.now) (bodies_of store.now)))
        out.old 0 result out.new }
{
    let form = attribute_form::form_of(store);
    let place = attribute_form::place_of(store, i);
    let w = layout::width_in(store);
    let first = codec::put(codec::first(form, place), out, 0);
    let code = u8::from(sort);
    let second = layout_writer::put_attribute(w, owner as u8, name, code, value, out, first);
    codec::put(codec::after(form, place), out, second)
}

/// Writes the form without attribute i.
pub fn put_dropped(store: &[u8], i: usize, out: &mut [u8]) -> usize
    requires { Droppable store.now i }
    ensures { Laid (form_bytes (width_of store.now) (attribute_dropped i (bodies_of store.now))) out.old 0 result out.new }
{
    let form = attribute_form::form_of(store);
    let place = attribute_form::place_of(store, i);
    let rest = attribute_form::place_of(store, i + 1);
    let next = codec::put(codec::first(form, place), out, 0);
    codec::put(codec::after(form, rest), out, next)
}
