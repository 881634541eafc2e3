//! What stands in a declaration: names, marks, the places of names, the kind of a definition.
#![tactic(auto)]

ghost use Rattle.std.specs.Prelude.{◌≡◌, ◌+◌, ◌*◌, ◌<◌, ◌≤◌, length};
ghost use Rattle.rules.specs.Bytes.{same};
ghost use Rattle.rules.specs.Layout.{definition_size, quantifier_code};
ghost use Rattle.rules.specs.Decode.{read_definition};
ghost use Rattle.rules.specs.Kinds.{kind_number};
ghost use Rattle.rules.specs.WellFormed.{in_name};
ghost use Rattle.layout.specs.Bodies.{record_at};
ghost use Rattle.text_scan.specs.Scan.{after_while};
ghost use Rattle.declaration_scan.specs.Declared.{mark_code, name_here, place_among, declared_name, after_declared, declared_kind};
ghost use Rattle.declaration_scan.specs.Names.{NameOf, written_names, PlaceIn};

use rules::{Kind, Quantifier};

/// The quantifier whose mark stands here.
pub fn mark_code(text: &[u8]) -> Quantifier
    ensures { quantifier_code result ≡ mark_code text.now }
{
    match codec::byte(text, 0) {
        b'?' => Quantifier::Qmark,
        b'*' => Quantifier::Star,
        b'+' => Quantifier::Plus,
        _ => Quantifier::None,
    }
}

/// The name that stands here, as far as a name goes.
pub fn name_here(text: &[u8]) -> &[u8]
    ensures { NameOf (name_here text.now) result.now }
{
    let n = text_scan::name_length(text);
    codec::first(codec::first(text, n), layout::NAME_WIDTH)
}

/// What stands after the bytes of names that the text begins with.
pub fn after_name(text: &[u8]) -> &[u8]
    ensures { result.now ≡ after_while in_name text.now }
{
    let n = text_scan::name_length(text);
    codec::after(text, n)
}

// Whether a definition has the name.
fn is_named(rec: &[u8], name: &[u8]) -> bool
    ensures { result ≡ same name.now (read_definition rec.now).name }
{
    codec::equal(name, layout::definition_name(rec))
}

// Definition i, which is all there. The reader of a record asks how far the bytes go, at each look.
fn whole_definition(defs: &[u8], i: usize) -> &[u8]
    requires { (i < 64) × (20 * (i + 1) ≤ length defs.now) }
    ensures { result.now ≡ record_at definition_size i defs.now }
{
    let at = layout::DEFINITION_SIZE * i;
    &defs[at..at + layout::DEFINITION_SIZE]
}

/// Where the definition of a name stands among the first n, if one of them has it.
pub fn definition_place(defs: &[u8], n: usize, name: &[u8]) -> Option<usize>
    requires { (n ≤ 64) × (20 * n ≤ length defs.now) }
    ensures { PlaceIn n (place_among name.now (written_names n defs.now)) result }
{
    (0..n).find(|&i| is_named(whole_definition(defs, i), name))
}

// ---- the line of a declaration

/// The name of the definition that the line declares, or adds an attribute to.
pub fn declared_name(line: &[u8]) -> &[u8]
    ensures { NameOf (declared_name line.now) result.now }
{
    name_here(codec::after(line, 10))
}

/// What stands after that name and a blank.
pub fn after_declared(line: &[u8]) -> &[u8]
    ensures { result.now ≡ after_declared line.now }
{
    codec::after(after_name(codec::after(line, 10)), 1)
}

/// The kind of content that a definition says.
pub fn declared_kind(content: &[u8]) -> Kind
    ensures { kind_number result ≡ declared_kind content.now }
{
    if codec::byte(content, 0) == b'E' {
        return Kind::Empty;
    }
    if text_scan::starts_with(content, b"(#") {
        return Kind::Pcdata;
    }
    Kind::Complex
}
