//! The tokens of the documents of a text.
#![tactic(auto)]

ghost use Rattle.std.specs.Prelude.{◌≡◌, ◌&&◌, [], ◌≤◌, eqb, length, None, Some};
ghost use Rattle.rules.specs.Bytes.{same};
ghost use Rattle.rules.specs.Decode.{read_attribute};
ghost use Rattle.lookup.specs.Bodies.{bodies_of};
ghost use Rattle.declaration_scan.specs.Names.{PlaceIn};
ghost use Rattle.document_tokens.specs.Tokens.{declared_in, kind_of_definition, attribute_among, element_token, attribute_token, text_token, tag_token, start_end_token, end_token, token_at};
ghost use Rattle.document_tokens.specs.Telling.{FormRoom, stack_of, Tells, ValueRead, Quotes};

use rules::{Kind, RowSort};

/// What stands at a place of a text as it is printed. `sort`: of the row that it makes, if it makes one; `length`: of
/// its value, which is in a buffer.
#[derive(Clone, Copy)]
pub struct Token {
    pub size: usize,
    pub sort: Option<RowSort>,
    pub index: usize,
    pub length: usize,
}

// ---- the form

// Whether an attribute is of this owner and has this name.
fn is_attribute(rec: &[u8], o: usize, name: &[u8]) -> bool
    ensures { result ≡ (eqb o (read_attribute rec.now).owner && same name.now (read_attribute rec.now).name) }
{
    (o == layout::attribute_owner(rec)) & codec::equal(name, layout::attribute_name(rec))
}

// Where the attribute of an owner with this name stands, if there is one.
fn attribute_place(form: &[u8], o: usize, name: &[u8]) -> Option<usize>
    ensures { PlaceIn (length (bodies_of form.now).attributes) (attribute_among o name.now (bodies_of form.now).attributes) result }
{
    let count = layout::attribute_count(form);
    (0..count).find(|&i| is_attribute(printing_parts::attribute(form, i), o, name))
}

// Whether definition o is there and has a text below it.
fn has_text(form: &[u8], o: usize) -> bool
    ensures { result ≡ eqb (kind_of_definition o (bodies_of form.now).definitions) 1 }
{
    if layout::definition_count(form) <= o {
        return false;
    }
    Kind::from(layout::definition_kind(printing_parts::definition(form, o))) == Kind::Pcdata
}

// ---- the tokens

// A token that makes no row.
fn rowless_token(size: usize) -> Token
    ensures { result ≡ record { size = size; sort = None; index = 0; length = 0 } }
{
    Token {
        size,
        sort: None,
        index: 0,
        length: 0,
    }
}

// `>`
fn start_end_token(text: &[u8]) -> Option<Token>
    ensures { Tells (start_end_token text.now) [] result [] }
{
    (codec::byte(text, 0) == b'>').then_some(rowless_token(1))
}

// What ends the element of definition o in so many others.
fn end_token(form: &[u8], o: usize, others: usize, text: &[u8]) -> Option<Token>
    ensures { Tells (end_token (declared_in form.now) o others text.now) [] result [] }
{
    if !text_scan::starts_with(text, b"</") {
        return None;
    }
    let name = printing_parts::name_of(form, o);
    let rest = codec::after(text, 2);
    if !text_scan::starts_with(rest, name) {
        return None;
    }
    let tail = codec::after(rest, name.len());
    if others == 0 {
        return text_scan::starts_with(tail, b">\n").then_some(rowless_token(4 + name.len()));
    }
    text_scan::starts_with(tail, b">").then_some(rowless_token(3 + name.len()))
}

// `<` and a name.
fn element_token(form: &[u8], text: &[u8]) -> Option<Token>
    requires { FormRoom form.now }
    ensures { Tells (element_token (declared_in form.now) text.now) [] result [] }
{
    if codec::byte(text, 0) != b'<' {
        return None;
    }
    let rest = codec::after(text, 1);
    let n = text_scan::name_length(rest);
    let name = codec::first(rest, n);
    let count = layout::definition_count(form);
    let definitions = codec::after(form, layout::HEADER_SIZE);
    let index = declaration_scan::definition_place(definitions, count, name)?;
    Some(Token {
        size: 1 + n,
        sort: Some(RowSort::Element),
        index,
        length: 0,
    })
}

// ---- tokens with a value

// The length of the value of at most w bytes that `raw` is the escape of, if it is.
fn read_value(w: usize, raw: &[u8], value: &mut [u8]) -> Option<usize>
    requires { w ≤ length value.old }
    ensures { ValueRead w raw.now value.old result value.new }
{
    let length = text_scan::unescape(raw, value)?;
    (length <= w).then_some(length)
}

// `>` and a text, which may be empty.
fn text_token(w: usize, text: &[u8], value: &mut [u8]) -> Option<Token>
    requires { w ≤ length value.old }
    ensures { Tells (text_token w text.now) value.old result value.new }
{
    if codec::byte(text, 0) != b'>' {
        return None;
    }
    let rest = codec::after(text, 1);
    let n = text_scan::length_before(rest, b'<');
    let length = read_value(w, codec::first(rest, n), value)?;
    Some(Token {
        size: 1 + n,
        sort: Some(RowSort::Text),
        index: 0,
        length,
    })
}

// How long a value in quotes is as it stands, and as it is meant.
#[derive(Clone, Copy)]
struct Quoted {
    raw: usize,
    length: usize,
}

// `="`, a value and `"`.
fn quoted_value(w: usize, text: &[u8], value: &mut [u8]) -> Option<Quoted>
    requires { w ≤ length value.old }
    ensures { Quotes w text.now value.old result value.new }
{
    if !text_scan::starts_with(text, b"=\"") {
        return None;
    }
    let rest = codec::after(text, 2);
    let raw = text_scan::length_before(rest, b'"');
    if codec::byte(rest, raw) != b'"' {
        return None;
    }
    let length = read_value(w, codec::first(rest, raw), value)?;
    Some(Quoted { raw, length })
}

// A blank, a name, `="`, a value and `"`, of an attribute of definition o.
fn attribute_token(w: usize, form: &[u8], o: usize, text: &[u8], value: &mut [u8]) -> Option<Token>
    requires { w ≤ length value.old }
    ensures { Tells (attribute_token (declared_in form.now) w o text.now) value.old result value.new }
{
    let rest = codec::after(text, 1);
    let n = text_scan::name_length(rest);
    let index = attribute_place(form, o, codec::first(rest, n))?;
    let read = quoted_value(w, codec::after(rest, n), value)?;
    Some(Token {
        size: 4 + (n + read.raw),
        sort: Some(RowSort::Attribute),
        index,
        length: read.length,
    })
}

// ---- which token

// A token in the start tag of an element of definition o.
fn tag_token(w: usize, form: &[u8], o: usize, text: &[u8], value: &mut [u8]) -> Option<Token>
    requires { w ≤ length value.old }
    ensures { Tells (tag_token (declared_in form.now) w o text.now) value.old result value.new }
{
    if codec::byte(text, 0) == b' ' {
        return attribute_token(w, form, o, text, value);
    }
    if has_text(form, o) {
        return text_token(w, text, value);
    }
    start_end_token(text)
}

/// The token at the front of a text, if one stands there exactly, where the elements of the `depth` definitions `opened` are opened, the last of
/// them innermost, and `tag`: its start tag is not ended.
pub fn token_at(
    w: usize,
    form: &[u8],
    text: &[u8],
    opened: &[u8; 256],
    depth: usize,
    tag: bool,
    value: &mut [u8],
) -> Option<Token>
    requires { (w ≤ length value.old) × FormRoom form.now × (depth ≤ 255) }
    ensures { Tells (token_at (declared_in form.now) w (stack_of depth opened.now) tag text.now) value.old result value.new }
{
    let ends = text_scan::starts_with(text, b"</");
    if !tag & !ends {
        if depth < 255 {
            return element_token(form, text);
        }
        return None;
    }
    if depth == 0 {
        return None;
    }
    let others = depth - 1;
    let o = layout::wide(opened[others]);
    if tag {
        return tag_token(w, form, o, text, value);
    }
    end_token(form, o, others, text)
}
