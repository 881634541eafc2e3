//! The public calls, forwarded to the crates that hold them. The crate formstore_c exports them to C. They are alike,
//! and take codes and answer numbers, because the C interface has these calls (include/formstore.h).
#![tactic(auto)]

ghost use Rattle.std.specs.Prelude.{◌≡◌, length};
ghost use Rattle.rules.specs.Passing.{passes};
ghost use Rattle.rules.specs.LookUp.{look_up};
ghost use Rattle.rules.specs.Change.{create_definition, destroy_definition, insert_element, remove_element, change_quantifier, convert_to_group, flatten_group};
ghost use Rattle.rules.specs.Change.{change_group_quantifier, add_attribute, destroy_attribute, add_document, add_element, destroy_element, set_attribute};
ghost use Rattle.rules.specs.Change.{destroy_attribute_row, set_text};
ghost use Rattle.rules.specs.Outcome.{Promise, Answers};
ghost use Rattle.rules.specs.Layout.{base_version};
ghost use Rattle.rules.specs.Print.{print_outcome};
ghost use Rattle.reading_rules.specs.Reading.{ReadPromise};
ghost use Rattle.lookup.specs.Finding.{Hands};
ghost use Rattle.look_up_calls.specs.Calls.{check_answer};

pub use look_up_calls::Found;
pub use store_writer::Answer;

/// 0 if the store passes the check, 1 if it does not.
pub fn check(store: &[u8]) -> u32
    ensures { result ≡ check_answer (passes store.now) }
{
    look_up_calls::check(store)
}

/// The part of the store that is the value of the attribute or text row with a serial, and 0; on a bad store 1, on any
/// other serial 7, with an empty part.
pub fn look_up<'a>(store: &'a [u8], serial: u32, number: &mut u32) -> &'a [u8]
    ensures { Hands (look_up store.now serial) store.now result.now number.new }
{
    match look_up_calls::look_up(store, serial) {
        Ok(value) => {
            *number = 0;
            value
        }
        Err(refusal) => {
            *number = u32::from(refusal);
            &store[..0]
        }
    }
}

/// Prints the store.
pub fn print(store: &[u8], out: &mut [u8]) -> Answer
    ensures { Answers (print_outcome store.now (length out.old)) out.old result.number result.length out.new }
{
    Answer::from(print_call::print(store, out))
}

/// Reads a printed text into a store: that of all stores that print it which has its serials from 1 on.
pub fn read_text(text: &[u8], out: &mut [u8]) -> Answer
    ensures { ReadPromise base_version text.now out.old result.number result.length out.new }
{
    Answer::from(read_call::read_text(text, out))
}

// ---- the changes, by their numbers

/// 1: creates a definition, after the others.
pub fn create_definition(store: &[u8], name: &[u8], kind: u32, out: &mut [u8]) -> Answer
    ensures { Promise (create_definition name.now kind) store.now out.old result.number result.length out.new }
{
    Answer::from(create_definition_call::create_definition(store, name, kind, out))
}

/// 2: destroys a definition, with its model and attributes.
pub fn destroy_definition(store: &[u8], definition: u32, out: &mut [u8]) -> Answer
    ensures { Promise (destroy_definition definition) store.now out.old result.number result.length out.new }
{
    Answer::from(destroy_definition_call::destroy_definition(store, definition, out))
}

/// 3: inserts an element into a model; on the spine each instance gets a filling if the quantifier needs one.
pub fn insert_element(
    store: &[u8],
    owner: u32,
    place: &[u32],
    definition: u32,
    quantifier: u32,
    text: &[u8],
    out: &mut [u8],
) -> Answer
    ensures { Promise (insert_element owner place.now definition quantifier text.now) store.now out.old result.number result.length out.new }
{
    Answer::from(insert_call::insert_element(
        store, owner, place, definition, quantifier, text, out,
    ))
}

/// 4: removes an element from a model, with the children of instances that it stands for.
pub fn remove_element(store: &[u8], owner: u32, place: &[u32], out: &mut [u8]) -> Answer
    ensures { Promise (remove_element owner place.now) store.now out.old result.number result.length out.new }
{
    Answer::from(remove_call::remove_element(store, owner, place, out))
}

/// 5: changes an element's quantifier.
pub fn change_quantifier(
    store: &[u8],
    owner: u32,
    place: &[u32],
    quantifier: u32,
    text: &[u8],
    out: &mut [u8],
) -> Answer
    ensures { Promise (change_quantifier owner place.now quantifier text.now) store.now out.old result.number result.length out.new }
{
    Answer::from(quantifier_calls::requantify(store, owner, place, quantifier, text, false, out))
}

/// 6: converts `count` members from a place on into a group.
pub fn convert_to_group(
    store: &[u8],
    owner: u32,
    place: &[u32],
    count: u32,
    sort: u32,
    out: &mut [u8],
) -> Answer
    ensures { Promise (convert_to_group owner place.now count sort) store.now out.old result.number result.length out.new }
{
    Answer::from(convert_call::convert_to_group(store, owner, place, count, sort, out))
}

/// 7: flattens a group into its list.
pub fn flatten_group(store: &[u8], owner: u32, place: &[u32], out: &mut [u8]) -> Answer
    ensures { Promise (flatten_group owner place.now) store.now out.old result.number result.length out.new }
{
    Answer::from(flatten_call::flatten_group(store, owner, place, out))
}

/// 8: changes a group's quantifier.
pub fn change_group_quantifier(
    store: &[u8],
    owner: u32,
    place: &[u32],
    quantifier: u32,
    text: &[u8],
    out: &mut [u8],
) -> Answer
    ensures { Promise (change_group_quantifier owner place.now quantifier text.now) store.now out.old result.number result.length out.new }
{
    Answer::from(quantifier_calls::requantify(store, owner, place, quantifier, text, true, out))
}

/// 9: adds an attribute; a REQUIRED one adds a row to each instance.
pub fn add_attribute(
    store: &[u8],
    owner: u32,
    name: &[u8],
    sort: u32,
    value: &[u8],
    out: &mut [u8],
) -> Answer
    ensures { Promise (add_attribute owner name.now sort value.now) store.now out.old result.number result.length out.new }
{
    Answer::from(add_attribute_call::add_attribute(store, owner, name, sort, value, out))
}

/// 10: destroys an attribute, with its rows.
pub fn destroy_attribute(store: &[u8], attribute: u32, out: &mut [u8]) -> Answer
    ensures { Promise (destroy_attribute attribute) store.now out.old result.number result.length out.new }
{
    Answer::from(destroy_attribute_call::destroy_attribute(store, attribute, out))
}

/// 11: a new last document, the filling of a definition.
pub fn add_document(store: &[u8], definition: u32, text: &[u8], out: &mut [u8]) -> Answer
    ensures { Promise (add_document definition text.now) store.now out.old result.number result.length out.new }
{
    Answer::from(document_call::add_document(store, definition, text, out))
}

/// 12: adds the filling of a definition as child number `child` of an element.
pub fn add_element(
    store: &[u8],
    parent: u32,
    child: u32,
    definition: u32,
    text: &[u8],
    out: &mut [u8],
) -> Answer
    ensures { Promise (add_element parent child definition text.now) store.now out.old result.number result.length out.new }
{
    Answer::from(add_element_call::add_element(store, parent, child, definition, text, out))
}

/// 13: destroys an element with all below it, or a whole document.
pub fn destroy_element(store: &[u8], element: u32, out: &mut [u8]) -> Answer
    ensures { Promise (destroy_element element) store.now out.old result.number result.length out.new }
{
    Answer::from(destroy_element_call::destroy_element(store, element, out))
}

/// 14: sets an attribute of an element; a row that is there keeps its serial.
pub fn set_attribute(
    store: &[u8],
    element: u32,
    attribute: u32,
    value: &[u8],
    out: &mut [u8],
) -> Answer
    ensures { Promise (set_attribute element attribute value.now) store.now out.old result.number result.length out.new }
{
    Answer::from(set_attribute_call::set_attribute(store, element, attribute, value, out))
}

/// 15: destroys the row of an attribute of an element.
pub fn destroy_attribute_row(store: &[u8], element: u32, attribute: u32, out: &mut [u8]) -> Answer
    ensures { Promise (destroy_attribute_row element attribute) store.now out.old result.number result.length out.new }
{
    Answer::from(destroy_attribute_row_call::destroy_attribute_row(store, element, attribute, out))
}

/// 16: sets the text of a PCDATA element.
pub fn set_text(store: &[u8], element: u32, text: &[u8], out: &mut [u8]) -> Answer
    ensures { Promise (set_text element text.now) store.now out.old result.number result.length out.new }
{
    Answer::from(text_call::set_text(store, element, text, out))
}
