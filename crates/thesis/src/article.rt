//! Article.dtd and its sample document, made by calls. `id` is CDATA and
//! REQUIRED; related is a LIST of one, starred, as in the thesis.
use super::calls;
use play::Play;
use rules::{AttributeSort, Kind, Quantifier};

// The definitions, by index; `middle` is created in the examples.
pub const ARTICLE: u32 = 0;

pub const TITLE: u32 = 1;

pub const AUTHOR: u32 = 2;

pub const NAME: u32 = 3;

pub const FIRST: u32 = 4;

pub const LAST: u32 = 5;

pub const RELATED: u32 = 6;

pub const MONOGRAPH: u32 = 7;

pub const EDITOR: u32 = 8;

pub const MIDDLE: u32 = 9;

fn definitions(play: Play) -> Play {
    play::tell(b"create the nine definitions:");
    let play = calls::create_definition(play, b"article", Kind::Complex);
    let play = calls::create_definition(play, b"title", Kind::Pcdata);
    let play = calls::create_definition(play, b"author", Kind::Complex);
    let play = calls::create_definition(play, b"name", Kind::Complex);
    let play = calls::create_definition(play, b"first", Kind::Pcdata);
    let play = calls::create_definition(play, b"last", Kind::Pcdata);
    let play = calls::create_definition(play, b"related", Kind::Complex);
    let play = calls::create_definition(play, b"monograph", Kind::Complex);
    calls::create_definition(play, b"editor", Kind::Empty)
}

// The first three are article's, then one of author's and two of name's.
fn members(play: Play) -> Play {
    play::tell(b"\ninsert the nine members:");
    let play = calls::insert_element(play, ARTICLE, &[0], TITLE, Quantifier::None, b"-");
    let play = calls::insert_element(play, ARTICLE, &[1], AUTHOR, Quantifier::Plus, b"-");
    let play = calls::insert_element(play, ARTICLE, &[2], RELATED, Quantifier::Qmark, b"");
    let play = calls::insert_element(play, AUTHOR, &[0], NAME, Quantifier::None, b"-");
    let play = calls::insert_element(play, NAME, &[0], FIRST, Quantifier::None, b"-");
    calls::insert_element(play, NAME, &[1], LAST, Quantifier::None, b"-")
}

fn related(play: Play) -> Play {
    let play = calls::insert_element(play, RELATED, &[0], MONOGRAPH, Quantifier::None, b"-");
    let play = calls::insert_element(play, MONOGRAPH, &[0], TITLE, Quantifier::None, b"-");
    let play = calls::insert_element(play, MONOGRAPH, &[1], EDITOR, Quantifier::None, b"-");
    play::tell(b"\nconvert monograph in related into a LIST, and star it:");
    let play = calls::convert_to_list(play, RELATED, &[1]);
    calls::change_group_quantifier(play, RELATED, &[1], Quantifier::Star)
}

fn attributes(play: Play) -> Play {
    play::tell(b"\nadd id REQUIRED to author, and name IMPLIED to editor:");
    let play = calls::add_attribute(play, AUTHOR, b"id", AttributeSort::Required, b"-");
    calls::add_attribute(play, EDITOR, b"name", AttributeSort::Implied, b"")
}

// The rows get the serials 1 to 22.
fn rows(play: Play) -> Play {
    play::tell(b"\na new article; add a second author, related, and a monograph in it:");
    let play = play.after(|store, out| formstore::add_document(store, ARTICLE, b"", out));
    let play = calls::add_element(play, 1, 2, AUTHOR, b"");
    let play = calls::add_element(play, 1, 3, RELATED, b"");
    calls::add_element(play, 18, 0, MONOGRAPH, b"")
}

fn texts(play: Play) -> Play {
    play::tell(b"\nset the six texts:");
    let play = calls::set_text(play, 2, b"XML Evolution Manager");
    let play = calls::set_text(play, 7, b"Diane");
    let play = calls::set_text(play, 9, b"Kramer");
    let play = calls::set_text(play, 14, b"Elke");
    let play = calls::set_text(play, 16, b"Rundensteiner");
    calls::set_text(play, 20, b"Modern Database Systems")
}

// The third makes row 23.
fn values(play: Play) -> Play {
    play::tell(b"\nset the three attributes:");
    let play = calls::set_attribute(play, 4, 0, b"dk");
    let play = calls::set_attribute(play, 11, 0, b"er");
    calls::set_attribute(play, 22, 1, b"Won Kim")
}

/// The store that each example starts from.
pub fn article() -> Play {
    let form = attributes(related(members(definitions(Play::fresh()))));
    let play = values(texts(rows(form)));
    play::tell(b"\n");
    play.show();
    play
}
