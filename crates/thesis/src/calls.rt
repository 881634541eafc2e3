//! The calls that the article and the examples make, by the names of their codes.
use play::Play;
use rules::{AttributeSort, GroupKind, Kind, Quantifier};

pub fn create_definition(play: Play, name: &[u8], kind: Kind) -> Play {
    let code = u32::from(u8::from(kind));
    play.after(|store, out| formstore::create_definition(store, name, code, out))
}

pub fn insert_element(
    play: Play,
    owner: u32,
    place: &[u32],
    definition: u32,
    quantifier: Quantifier,
    text: &[u8],
) -> Play {
    let code = u32::from(u8::from(quantifier));
    play.after(|store, out| {
        formstore::insert_element(store, owner, place, definition, code, text, out)
    })
}

/// Converts one member into a LIST.
pub fn convert_to_list(play: Play, owner: u32, place: &[u32]) -> Play {
    let sort = u32::from(u8::from(GroupKind::Sequence));
    play.after(|store, out| formstore::convert_to_group(store, owner, place, 1, sort, out))
}

pub fn change_group_quantifier(
    play: Play,
    owner: u32,
    place: &[u32],
    quantifier: Quantifier,
) -> Play {
    let code = u32::from(u8::from(quantifier));
    play.after(|store, out| {
        formstore::change_group_quantifier(store, owner, place, code, b"", out)
    })
}

pub fn add_attribute(
    play: Play,
    owner: u32,
    name: &[u8],
    sort: AttributeSort,
    value: &[u8],
) -> Play {
    let code = u32::from(u8::from(sort));
    play.after(|store, out| formstore::add_attribute(store, owner, name, code, value, out))
}

pub fn add_element(play: Play, parent: u32, child: u32, definition: u32, text: &[u8]) -> Play {
    play.after(|store, out| formstore::add_element(store, parent, child, definition, text, out))
}

pub fn set_attribute(play: Play, element: u32, attribute: u32, value: &[u8]) -> Play {
    play.after(|store, out| formstore::set_attribute(store, element, attribute, value, out))
}

pub fn set_text(play: Play, element: u32, text: &[u8]) -> Play {
    play.after(|store, out| formstore::set_text(store, element, text, out))
}
