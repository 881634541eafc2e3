//! Checks the store that clubform leaves and one with groups and attributes, each with every kind of fault in turn, and
//! prints each answer: 0 passes, 1 does not.
#![tactic(auto)]

ghost use Rattle.std.specs.Prelude.{◌<◌};

use sample_stores::{CLUB, LEGS};

// The number that the check of a store answers.
fn tell_check(what: &[u8], store: &[u8]) {
    play::tell(what);
    play::tell(b":");
    play::tell_number(u64::from(formstore::check(store)));
    play::tell(b"\n");
}

// The same with one byte changed.
fn tell_fault<const N: usize>(what: &[u8], mut store: [u8; N], at: usize, value: u8)
    requires { at < N }
{
    store[at] = value;
    tell_check(what, &store);
}

fn legs() {
    tell_check(b"a store with groups and attributes", &LEGS);
}

fn lengths() {
    let store = CLUB;
    tell_check(b"the whole store", &store);
    tell_check(b"39 bytes of it", &store[..39]);
    tell_check(b"a byte less", &store[..507]);
    tell_check(b"nothing of it", &store[..0]);
}

fn header() {
    tell_fault(b"version 2", CLUB, 0, 2);
    tell_fault(b"next serial 0", CLUB, 4, 0);
    tell_fault(b"another offset", CLUB, 8, 41);
    tell_fault(b"a definition more", CLUB, 12, 6);
}

fn definitions() {
    tell_fault(b"a name of no bytes", CLUB, 40, 0);
    tell_fault(b"a name that begins with a digit", CLUB, 41, 49);
    tell_fault(b"a name that is not filled with zeros", CLUB, 56, 1);
    tell_fault(b"a kind that is none", CLUB, 57, 3);
    tell_fault(b"a particle more", CLUB, 58, 2);
}

fn particles() {
    tell_fault(b"a particle sort that is none", CLUB, 140, 3);
    tell_fault(b"a quantifier that is none", CLUB, 141, 4);
    tell_fault(b"an element past the definitions", CLUB, 142, 9);
    tell_fault(b"a definition that reaches itself", CLUB, 142, 0);
    tell_fault(b"a particle too deep", CLUB, 143, 1);
}

fn rows() {
    tell_fault(b"a row sort that is none", CLUB, 156, 4);
    tell_fault(b"a first row that is no root", CLUB, 157, 1);
    tell_fault(b"a definition past the table", CLUB, 158, 7);
    tell_fault(b"serial 0", CLUB, 160, 0);
    tell_fault(b"a serial twice", CLUB, 204, 1);
    tell_fault(b"a serial equal to the next", CLUB, 160, 9);
}

fn values() {
    tell_fault(b"an element with a value", CLUB, 164, 1);
    tell_fault(b"a text with an index", CLUB, 290, 1);
    tell_fault(b"a value of 33 bytes", CLUB, 296, 33);
    tell_fault(b"a byte that is not zero", CLUB, 297, 1);
    tell_fault(b"a value byte of 1F", CLUB, 298, 31);
    tell_fault(b"a value that is not filled with zeros", CLUB, 299, 1);
    tell_fault(b"a last byte that is not zero", CLUB, 331, 1);
    tell_fault(b"a child that the model does not have there", CLUB, 334, 3);
}

fn legs_models() {
    tell_fault(b"two definitions of one name", LEGS, 81, 97);
    tell_fault(b"particles of an EMPTY definition", LEGS, 78, 1);
    tell_fault(b"particles of no definition", LEGS, 58, 3);
    tell_fault(b"a group of more members than it has", LEGS, 122, 3);
    tell_fault(b"a group of no members", LEGS, 122, 0);
    tell_fault(b"an element twice in a model", LEGS, 130, 1);
    tell_fault(b"an element with a member", LEGS, 127, 2);
}

fn legs_attributes() {
    tell_fault(b"an attribute of no definition", LEGS, 136, 9);
    tell_fault(b"attributes that are not by owner", LEGS, 136, 3);
    tell_fault(b"two attributes of one name and owner", LEGS, 190, 112);
    tell_fault(b"an attribute sort that is none", LEGS, 154, 3);
    tell_fault(b"an IMPLIED attribute with a value", LEGS, 154, 0);
    tell_fault(b"a REQUIRED attribute without a fill", LEGS, 258, 1);
    tell_fault(
        b"an attribute name that is not filled with zeros",
        LEGS,
        153,
        1,
    );
    tell_fault(b"a default value of 33 bytes", LEGS, 207, 33);
}

fn legs_attribute_rows() {
    tell_fault(b"an attribute row of another owner", LEGS, 338, 2);
    tell_fault(b"an attribute row past the table", LEGS, 338, 7);
    tell_fault(b"an attribute row twice", LEGS, 382, 0);
    tell_fault(b"a FIXED value that differs", LEGS, 390, 102);
    tell_fault(b"a REQUIRED row that is not there", LEGS, 336, 3);
    tell_fault(b"attribute rows out of order", LEGS, 338, 1);
}

fn legs_rows() {
    tell_fault(b"a row two deeper than the one before", LEGS, 425, 3);
    tell_fault(b"an element below EMPTY", LEGS, 469, 2);
    tell_fault(b"a text in COMPLEX", LEGS, 601, 1);
    tell_fault(b"two texts", LEGS, 556, 3);
    tell_fault(b"PCDATA without a text", LEGS, 600, 2);
    tell_fault(b"children in another order", LEGS, 470, 3);
}

fn main() {
    lengths();
    header();
    definitions();
    particles();
    rows();
    values();
    legs();
    legs_models();
    legs_attributes();
    legs_attribute_rows();
    legs_rows();
}
