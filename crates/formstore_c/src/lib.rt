//! The public calls for C: each exported function forwards to the call of the same name in formstore, and promises the
//! same. They are alike, and take codes and answer numbers, because include/formstore.h declares them so.
#![tactic(auto)]

ghost use Rattle.std.specs.Prelude.{◌≡◌, length};
ghost use Rattle.rules.specs.Passing.{passes};
ghost use Rattle.rules.specs.LookUp.{look_up};
ghost use Rattle.rules.specs.Change.{create_definition, destroy_definition, insert_element, remove_element, change_quantifier, convert_to_group, flatten_group};
ghost use Rattle.rules.specs.Change.{change_group_quantifier, add_attribute, destroy_attribute, add_document, add_element, destroy_element, set_attribute};
ghost use Rattle.rules.specs.Change.{destroy_attribute_row, set_text};
ghost use Rattle.rules.specs.Outcome.{Promise, Answers};
ghost use Rattle.rules.specs.Layout.{base_version};
ghost use Rattle.rules.specs.Print.{print_outcome};
ghost use Rattle.reading_rules.specs.Reading.{ReadPromise};
ghost use Rattle.lookup.specs.Finding.{Looks};
ghost use Rattle.look_up_calls.specs.Calls.{check_answer};

use formstore::{Answer, Found};

#[unsafe(no_mangle)]
pub extern "C" fn formstore_check(store: &[u8]) -> u32
    ensures { result ≡ check_answer (passes store.now) }
{
    formstore::check(store)
}

// C gets no reference back, but where the part lies.
#[unsafe(no_mangle)]
pub extern "C" fn formstore_look_up(store: &[u8], serial: u32) -> Found
    ensures { Looks (look_up store.now serial) result.number result.start result.length }
{
    look_up_calls::look_up_place(store, serial)
}

#[unsafe(no_mangle)]
pub extern "C" fn formstore_print(store: &[u8], out: &mut [u8]) -> Answer
    ensures { Answers (print_outcome store.now (length out.old)) out.old result.number result.length out.new }
{
    formstore::print(store, out)
}

#[unsafe(no_mangle)]
pub extern "C" fn formstore_read_text(text: &[u8], out: &mut [u8]) -> Answer
    ensures { ReadPromise base_version text.now out.old result.number result.length out.new }
{
    formstore::read_text(text, out)
}

// ---- the changes, in the order of their numbers

#[unsafe(no_mangle)]
pub extern "C" fn formstore_create_definition(
    store: &[u8],
    name: &[u8],
    kind: u32,
    out: &mut [u8],
) -> Answer
    ensures { Promise (create_definition name.now kind) store.now out.old result.number result.length out.new }
{
    formstore::create_definition(store, name, kind, out)
}

#[unsafe(no_mangle)]
pub extern "C" fn formstore_destroy_definition(
    store: &[u8],
    definition: u32,
    out: &mut [u8],
) -> Answer
    ensures { Promise (destroy_definition definition) store.now out.old result.number result.length out.new }
{
    formstore::destroy_definition(store, definition, out)
}

#[unsafe(no_mangle)]
pub extern "C" fn formstore_insert_element(
    store: &[u8],
    owner: u32,
    place: &[u32],
    definition: u32,
    quantifier: u32,
    text: &[u8],
    out: &mut [u8],
) -> Answer
    ensures { Promise (insert_element owner place.now definition quantifier text.now) store.now out.old result.number result.length out.new }
{
    formstore::insert_element(store, owner, place, definition, quantifier, text, out)
}

#[unsafe(no_mangle)]
pub extern "C" fn formstore_remove_element(
    store: &[u8],
    owner: u32,
    place: &[u32],
    out: &mut [u8],
) -> Answer
    ensures { Promise (remove_element owner place.now) store.now out.old result.number result.length out.new }
{
    formstore::remove_element(store, owner, place, out)
}

#[unsafe(no_mangle)]
pub extern "C" fn formstore_change_quantifier(
    store: &[u8],
    owner: u32,
    place: &[u32],
    quantifier: u32,
    text: &[u8],
    out: &mut [u8],
) -> Answer
    ensures { Promise (change_quantifier owner place.now quantifier text.now) store.now out.old result.number result.length out.new }
{
    formstore::change_quantifier(store, owner, place, quantifier, text, out)
}

#[unsafe(no_mangle)]
pub extern "C" fn formstore_convert_to_group(
    store: &[u8],
    owner: u32,
    place: &[u32],
    count: u32,
    sort: u32,
    out: &mut [u8],
) -> Answer
    ensures { Promise (convert_to_group owner place.now count sort) store.now out.old result.number result.length out.new }
{
    formstore::convert_to_group(store, owner, place, count, sort, out)
}

#[unsafe(no_mangle)]
pub extern "C" fn formstore_flatten_group(
    store: &[u8],
    owner: u32,
    place: &[u32],
    out: &mut [u8],
) -> Answer
    ensures { Promise (flatten_group owner place.now) store.now out.old result.number result.length out.new }
{
    formstore::flatten_group(store, owner, place, out)
}

#[unsafe(no_mangle)]
pub extern "C" fn formstore_change_group_quantifier(
    store: &[u8],
    owner: u32,
    place: &[u32],
    quantifier: u32,
    text: &[u8],
    out: &mut [u8],
) -> Answer
    ensures { Promise (change_group_quantifier owner place.now quantifier text.now) store.now out.old result.number result.length out.new }
{
    formstore::change_group_quantifier(store, owner, place, quantifier, text, out)
}

#[unsafe(no_mangle)]
pub extern "C" fn formstore_add_attribute(
    store: &[u8],
    owner: u32,
    name: &[u8],
    sort: u32,
    value: &[u8],
    out: &mut [u8],
) -> Answer
    ensures { Promise (add_attribute owner name.now sort value.now) store.now out.old result.number result.length out.new }
{
    formstore::add_attribute(store, owner, name, sort, value, out)
}

#[unsafe(no_mangle)]
pub extern "C" fn formstore_destroy_attribute(
    store: &[u8],
    attribute: u32,
    out: &mut [u8],
) -> Answer
    ensures { Promise (destroy_attribute attribute) store.now out.old result.number result.length out.new }
{
    formstore::destroy_attribute(store, attribute, out)
}

#[unsafe(no_mangle)]
pub extern "C" fn formstore_add_document(
    store: &[u8],
    definition: u32,
    text: &[u8],
    out: &mut [u8],
) -> Answer
    ensures { Promise (add_document definition text.now) store.now out.old result.number result.length out.new }
{
    formstore::add_document(store, definition, text, out)
}

#[unsafe(no_mangle)]
pub extern "C" fn formstore_add_element(
    store: &[u8],
    parent: u32,
    child: u32,
    definition: u32,
    text: &[u8],
    out: &mut [u8],
) -> Answer
    ensures { Promise (add_element parent child definition text.now) store.now out.old result.number result.length out.new }
{
    formstore::add_element(store, parent, child, definition, text, out)
}

#[unsafe(no_mangle)]
pub extern "C" fn formstore_destroy_element(store: &[u8], element: u32, out: &mut [u8]) -> Answer
    ensures { Promise (destroy_element element) store.now out.old result.number result.length out.new }
{
    formstore::destroy_element(store, element, out)
}

#[unsafe(no_mangle)]
pub extern "C" fn formstore_set_attribute(
    store: &[u8],
    element: u32,
    attribute: u32,
    value: &[u8],
    out: &mut [u8],
) -> Answer
    ensures { Promise (set_attribute element attribute value.now) store.now out.old result.number result.length out.new }
{
    formstore::set_attribute(store, element, attribute, value, out)
}

#[unsafe(no_mangle)]
pub extern "C" fn formstore_destroy_attribute_row(
    store: &[u8],
    element: u32,
    attribute: u32,
    out: &mut [u8],
) -> Answer
    ensures { Promise (destroy_attribute_row element attribute) store.now out.old result.number result.length out.new }
{
    formstore::destroy_attribute_row(store, element, attribute, out)
}

#[unsafe(no_mangle)]
pub extern "C" fn formstore_set_text(
    store: &[u8],
    element: u32,
    text: &[u8],
    out: &mut [u8],
) -> Answer
    ensures { Promise (set_text element text.now) store.now out.old result.number result.length out.new }
{
    formstore::set_text(store, element, text, out)
}
