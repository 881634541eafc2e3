//! The lines of a form: a definition with its content model, and the attributes of a definition.
#![tactic(auto)]

ghost use Rattle.std.specs.Prelude.{◌≡◌, true, suc, ◌+◌, ◌<◌, ◌≤◌, length};
ghost use Rattle.codec.specs.Laid.{Laid};
ghost use Rattle.rules.specs.declared.Kind.TheVariants.{Complex};
ghost use Rattle.rules.specs.Preorder.{build};
ghost use Rattle.rules.specs.Decode.{read_definition, read_particle, read_attribute, definition_count, attribute_count, of_owner};
ghost use Rattle.rules.specs.Kinds.{kind_number};
ghost use Rattle.rules.specs.Print.{mark_of};
ghost use Rattle.printing_parts.specs.Parts.{definition_part, particle_part, attribute_part, names_of, particles_from, attributes_from};
ghost use Rattle.printing_parts.specs.Walking.{TextRoom, Passed, Stepped};
ghost use Rattle.declaration_printing.specs.Declarations.{sign_text, member_text, members_text, LaidWithin, default_text, attribute_line_text, attributes_text, is_tree, content_text, definition_text};

use printing_parts::Walked;
use rules::{AttributeSort, GroupKind, Kind, Quantifier};

// ---- marks, separators

// Writes the mark of a quantifier.
fn put_mark(quantifier: Quantifier, out: &mut [u8], at: usize) -> usize
    requires { at < 9223372036854775808 }
    ensures { Laid (mark_of quantifier) out.old at result out.new }
{
    match quantifier {
        Quantifier::None => at,
        Quantifier::Qmark => codec::put_u8(out, at, b'?'),
        Quantifier::Star => codec::put_u8(out, at, b'*'),
        Quantifier::Plus => codec::put_u8(out, at, b'+'),
    }
}

// Writes what stands before a member of a group of this kind.
fn put_separator(kind: GroupKind, first: bool, out: &mut [u8], at: usize) -> usize
    requires { at < 9223372036854775808 }
    ensures { Laid (sign_text kind first) out.old at result out.new }
{
    if first {
        return at;
    }
    match kind {
        GroupKind::Sequence => codec::put_u8(out, at, b','),
        GroupKind::Choice => codec::put_u8(out, at, b'|'),
    }
}

// ---- content models

// Writes one member and what is below it.
#[cycle(put_member_put_members)]
fn put_member(
    store: &[u8],
    end: usize,
    i: usize,
    depth: usize,
    kind: GroupKind,
    first: bool,
    out: &mut [u8],
    at: usize,
) -> Walked
    requires { TextRoom end i depth at × (i < end) × (depth < 256) }
    ensures { Stepped (particles_from store.now end)
        (member_text (names_of store.now) kind first (read_particle (particle_part store.now i)).row
        (build (particles_from store.now end (i + 1)) (suc depth)))
        end i depth at out.old result.next result.at out.new }
{
    let bytes = printing_parts::particle(store, i);
    let quantifier = Quantifier::from(layout::particle_quantifier(bytes));
    let signed = put_separator(kind, first, out, at);
    let Some(inner) = layout::group_kind_of(bytes) else {
        let index = layout::particle_index(bytes) as usize;
        let named = codec::put(printing_parts::name_of(store, index), out, signed);
        return Walked {
            at: put_mark(quantifier, out, named),
            next: i + 1,
        };
    };
    let opened = codec::put_u8(out, signed, b'(');
    let below = put_members(store, end, i + 1, depth + 1, inner, out, opened);
    let closed = codec::put_u8(out, below.at, b')');
    Walked {
        at: put_mark(quantifier, out, closed),
        next: below.next,
    }
}

// Writes the members of one depth that stand beside one another, in a group of this kind.
#[cycle(put_member_put_members)]
fn put_members(
    store: &[u8],
    end: usize,
    from: usize,
    depth: usize,
    kind: GroupKind,
    out: &mut [u8],
    start: usize,
) -> Walked
    requires { TextRoom end from depth start }
    ensures { Passed (particles_from store.now end) (members_text (names_of store.now) kind true) end from depth start
        out.old result.next result.at out.new }
{
    let mut at = start;
    let mut i = from;
    let mut first = true;
    // A `while`: a member is any number of particles.
    while i < end {
        let d = layout::particle_depth(printing_parts::particle(store, i)) as usize;
        if d < depth {
            return Walked { at, next: i };
        }
        if d == depth {
            let member = put_member(store, end, i, depth, kind, first, out, at);
            at = member.at;
            i = member.next;
            first = false;
        } else {
            i += 1;
        }
    }
    Walked { at, next: i }
}

// ---- the lines of attributes

// Writes the default of attribute i.
fn put_default(store: &[u8], i: usize, out: &mut [u8], at: usize) -> usize
    requires { (i < 4294967296) × (at < 4611686018427387904) }
    ensures { LaidWithin 2000 (default_text (read_attribute (attribute_part store.now i))) out.old at result out.new }
{
    let bytes = printing_parts::attribute(store, i);
    match AttributeSort::from(layout::attribute_sort(bytes)) {
        AttributeSort::Implied => codec::put(b"#IMPLIED", out, at),
        AttributeSort::Required => codec::put(b"#REQUIRED", out, at),
        AttributeSort::Fixed => {
            let value = layout::attribute_value(bytes);
            let quoted = codec::put(b"#FIXED \"", out, at);
            let valued = escaping::put_escaped(value, out, quoted);
            codec::put_u8(out, valued, b'"')
        }
    }
}

// Writes the line of attribute i of a definition of this name.
fn put_attribute_line(store: &[u8], i: usize, owner: &[u8], out: &mut [u8], at: usize) -> usize
    requires { (i < attribute_count store.now) × (at < 2305843009213693952) × (length owner.now ≤ 300) × (attribute_count store.now ≤ 64) }
    ensures { LaidWithin 3000 (attribute_line_text owner.now (read_attribute (attribute_part store.now i))) out.old at result out.new }
{
    let signed = codec::put(b"<!ATTLIST ", out, at);
    let owned = codec::put(owner, out, signed);
    let spaced = codec::put_u8(out, owned, b' ');
    let named = codec::put(printing_parts::attribute_name_of(store, i), out, spaced);
    let typed = codec::put(b" CDATA ", out, named);
    let valued = put_default(store, i, out, typed);
    codec::put(b">\n", out, valued)
}

/// Writes the lines of the attributes of definition o, which has this name.
pub fn put_attributes(store: &[u8], o: usize, owner: &[u8], out: &mut [u8], start: usize) -> usize
    requires { (attribute_count store.now ≤ 64) × (start < 1152921504606846976) × (length owner.now ≤ 300) }
    ensures { LaidWithin 192000
        (attributes_text owner.now (of_owner o (attributes_from store.now (attribute_count store.now) 0))) out.old start
        result out.new }
{
    let count = layout::attribute_count(store);
    let mut at = start;
    for i in 0..count {
        if layout::attribute_owner(printing_parts::attribute(store, i)) != o {
            continue;
        }
        at = put_attribute_line(store, i, owner, out, at);
    }
    at
}

// ---- the line of a definition

// Whether a content model has members.
fn has_members(store: &[u8], from: usize, end: usize) -> bool
    requires { end < 4294967296 }
    ensures { result ≡ is_tree (build (particles_from store.now end from) 0) }
{
    for i in from..end {
        if layout::particle_depth(printing_parts::particle(store, i)) == 0 {
            return true;
        }
    }
    false
}

// Writes a content model of the particles from number `from` to `end`.
fn put_model(store: &[u8], from: usize, end: usize, out: &mut [u8], at: usize) -> usize
    requires { (end ≤ 256) × (at < 2305843009213693952) }
    ensures { LaidWithin 640100 (content_text (names_of store.now) (kind_number Complex) (build (particles_from store.now end from) 0))
        out.old at result out.new }
{
    if !has_members(store, from, end) {
        return codec::put(b"EMPTY", out, at);
    }
    let opened = codec::put_u8(out, at, b'(');
    let members = put_members(store, end, from, 0, GroupKind::Sequence, out, opened);
    codec::put_u8(out, members.at, b')')
}

// Writes what a definition of a kind has below it, a content model of the particles from number `from` to `end`.
fn put_content(
    store: &[u8],
    kind: Kind,
    from: usize,
    end: usize,
    out: &mut [u8],
    at: usize,
) -> usize
    requires { (end ≤ 256) × (at < 2305843009213693952) }
    ensures { LaidWithin 640100 (content_text (names_of store.now) (kind_number kind) (build (particles_from store.now end from) 0))
        out.old at result out.new }
{
    match kind {
        Kind::Empty => codec::put(b"EMPTY", out, at),
        Kind::Pcdata => codec::put(b"(#PCDATA)", out, at),
        Kind::Complex => put_model(store, from, end, out, at),
    }
}

/// Writes the line of definition o, whose particles are those from number `from` to `end`.
pub fn put_definition(
    store: &[u8],
    o: usize,
    from: usize,
    end: usize,
    out: &mut [u8],
    at: usize,
) -> usize
    requires { (o < definition_count store.now) × (end ≤ 256) × (at < 1152921504606846976) × (definition_count store.now ≤ 64) }
    ensures { LaidWithin 641000
        (definition_text (names_of store.now) (read_definition (definition_part store.now o)) (particles_from store.now end from))
        out.old at result out.new }
{
    let kind = Kind::from(layout::definition_kind(printing_parts::definition(store, o)));
    let signed = codec::put(b"<!ELEMENT ", out, at);
    let named = codec::put(printing_parts::name_of(store, o), out, signed);
    let spaced = codec::put_u8(out, named, b' ');
    let filled = put_content(store, kind, from, end, out, spaced);
    codec::put(b">\n", out, filled)
}
