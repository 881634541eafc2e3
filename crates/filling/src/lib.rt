//! The filling of a definition, and of an attribute: the rows that a change makes.
#![tactic(auto)]

ghost use Rattle.std.specs.Prelude.{◌≡◌, ◌+◌, ◌<◌, ◌≤◌, length, get_or};
ghost use Rattle.rules.specs.Decode.{quantifier_of};
ghost use Rattle.rules.specs.Model.{skips, neutral, nothing, unless, filling};
ghost use Rattle.model.specs.Members.{members_from};
ghost use Rattle.layout.specs.Bodies.{Width};
ghost use Rattle.row_writer.specs.Written.{Room, Written};
ghost use Rattle.filling.specs.Fillings.{group_filled};
ghost use Rattle.filling.specs.Parts.{left_out, passed, settled, member_nothing, member_filling, value_in, required_at, required_in, members_read_at};
ghost use Rattle.filling.specs.Parts.{element_needed, no_element_needed};
ghost use Rattle.filling.specs.Parts.{definition_rows, member_rows, below_rows, fill_with, Asks, Indexed};
ghost use Rattle.layout.specs.Fields.{particle_quantifier_at, particle_sort_at};
ghost use Rattle.rules.specs.Layout.{particle_size};

use layout::{Form, PARTICLE_SIZE};
use model::What;
use row_writer::Cursor;
use rules::{AttributeSort, GroupKind, Kind, Quantifier, RowSort};

/// What a change fills with: nothing, a definition by its index, one row of an attribute by its index, or a group of a
/// kind by the number of its first member in the particle body and the depth of its members.
// `Nothing` is one of four cases that `put_filling` answers at once; as an Option it would be asked apart.
#[derive(Clone, Copy)]
pub enum Filling {
    Nothing,
    Definition(usize),
    Attribute(usize),
    Particles(GroupKind, usize, usize),
}

// Whether the quantifier of the particle that t begins with lets it be absent.
fn is_optional(t: &[u8]) -> bool
    ensures { result ≡ skips (quantifier_of (get_or t.now particle_quantifier_at 0)) }
{
    model::skips(Quantifier::from(layout::particle_quantifier(t)))
}

// Whether the particle that t begins with may be left out of a group of a kind with no look at the members after it.
fn is_left_out(t: &[u8], kind: GroupKind) -> bool
    ensures { result ≡ left_out kind (quantifier_of (get_or t.now particle_quantifier_at 0)) }
{
    kind == GroupKind::Sequence && is_optional(t)
}

// Whether a group of a kind with members of depth d goes past the particle of depth `own` that t begins with.
fn is_passed(t: &[u8], own: usize, d: usize, kind: GroupKind) -> bool
    ensures { result ≡ passed d kind own (quantifier_of (get_or t.now particle_quantifier_at 0)) }
{
    let deeper = d < own;
    deeper | is_left_out(t, kind)
}

// Whether a group of no members accepts nothing.
fn nothing_of_none(kind: GroupKind) -> bool
    ensures { result ≡ neutral kind }
{
    kind == GroupKind::Sequence
}

// Whether a member that accepts nothing, or does not, settles it for its group.
fn is_settled(kind: GroupKind, member: bool) -> bool
    ensures { result ≡ settled kind member }
{
    match kind {
        GroupKind::Sequence => !member,
        GroupKind::Choice => member,
    }
}

// Whether the particle of depth d that t begins with accepts nothing.
#[cycle(accepts_nothing_member_accepts_nothing)]
fn member_accepts_nothing(t: &[u8], d: usize) -> bool
    requires { (d < 256) × (particle_size ≤ length t.now) }
    ensures { result ≡ member_nothing d t.now }
{
    if is_optional(t) {
        return true;
    }
    let Some(kind) = layout::group_kind_of(t) else {
        return false;
    };
    accepts_nothing(&t[PARTICLE_SIZE..], d + 1, kind)
}

// Whether a group of the members of depth d that s begins with accepts
// nothing. It looks no further than the member that settles it.
#[cycle(accepts_nothing_member_accepts_nothing)]
fn accepts_nothing(s: &[u8], d: usize, kind: GroupKind) -> bool
    requires { d ≤ 256 }
    ensures { result ≡ nothing kind (members_from d s.now) }
{
    // By hand: a member's own members are read from the tail.
    let mut t = s;
    while t.len() >= PARTICLE_SIZE {
        let own = layout::particle_depth(t) as usize;
        if own < d {
            return nothing_of_none(kind);
        }
        if is_passed(t, own, d, kind) {
            t = &t[PARTICLE_SIZE..];
        } else {
            let member = member_accepts_nothing(t, d);
            if is_settled(kind, member) {
                return member;
            }
            t = &t[PARTICLE_SIZE..];
        }
    }
    nothing_of_none(kind)
}

// Whether a group fills with nothing though its first member may not: a CHOICE that accepts nothing. In a LIST that
// accepts nothing each member fills with nothing, so that there is no
// need to go through the members before they are filled.
fn fills_nothing(s: &[u8], d: usize, kind: GroupKind) -> bool
    requires { d ≤ 256 }
    ensures { group_filled kind (members_from d s.now) ≡ unless result (filling kind (members_from d s.now)) }
{
    kind == GroupKind::Choice && accepts_nothing(s, d, GroupKind::Choice)
}

// Whether the particle that t begins with is an element that must be there.
// By the code 0 of an element: a `What` would be read with an index or a kind, of which nothing is asked here.
fn is_needed(t: &[u8]) -> bool
    ensures { result ≡ element_needed (get_or t.now particle_sort_at 0) (quantifier_of (get_or t.now particle_quantifier_at 0)) }
{
    layout::particle_sort(t) == 0 && !is_optional(t)
}

// Whether no element among the members of depth d that s begins with, and below them, must be there: then a group of
// them fills with nothing, whatever its kind. One scan tells it, with no look at what each group in it accepts.
fn needs_no_element(s: &[u8], d: usize) -> bool
    ensures { result ≡ no_element_needed d s.now }
{
    for particle in s.chunks_exact(PARTICLE_SIZE) {
        let own = layout::particle_depth(particle) as usize;
        if own < d {
            return true;
        }
        if is_needed(particle) {
            return false;
        }
    }
    true
}

// The value that attribute j has in a created row, where it is one that must be present.
fn created_value(w: usize, attrs: &[u8], j: usize) -> &[u8]
    requires { Width w × (j ≤ 64) }
    ensures { (result.now ≡ value_in w attrs.now j) × (length result.now ≤ w) }
{
    let record = layout::attribute_at(w, attrs, j);
    let sort = AttributeSort::from(layout::attribute_sort(record));
    records::created_value(sort, layout::attribute_value(record))
}

// ---- The writers of a filling call each other as deep as definitions and groups are nested, so that their frames on
// the stack are to stay small.

// Writes attribute j, if it is one that definition i needs.
fn put_attribute(form: &Form<'_>, i: usize, j: usize, depth: usize, c: &mut Cursor, out: &mut [u8])
    requires { Width form.now.width × Room form.now.width c.old × (j < 64) × (depth < 256) }
    ensures { Written form.now.width (required_at form.now depth i j) c.old out.old c.new out.new }
{
    let w = form.width;
    if form_index::needs(form.version, w, form.attributes, i, j) {
        let value = created_value(w, form.attributes, j);
        row_writer::put_new(w, u8::from(RowSort::Attribute), depth, j, value, c, out);
    }
}

// Writes the REQUIRED attributes of definition i.
fn put_required(form: &Form<'_>, i: usize, depth: usize, c: &mut Cursor, out: &mut [u8])
    requires { Width form.now.width × Room form.now.width c.old × (form.now.attribute_count ≤ 64) × (depth < 256) }
    ensures { Written form.now.width (required_in form.now depth i form.now.attribute_count) c.old out.old c.new out.new }
{
    for j in 0..form.attribute_count {
        put_attribute(form, i, j, depth, c, out);
    }
}

// Writes the filling of the members of depth d that s begins with, in a group of a kind. Their rows have the depth
// `depth`, and no definition is higher than h. It stops where no row may be
// written any more, so that the work is bounded by the rows.
#[cycle(put_below_put_definition_put_group_put_member)]
fn put_group(
    s: &[u8],
    d: usize,
    kind: GroupKind,
    form: &Form<'_>,
    text: &[u8],
    h: usize,
    depth: usize,
    c: &mut Cursor,
    out: &mut [u8],
)
    requires { (d ≤ 256) × Asks form.now c.old text.now h depth }
    ensures { Written form.now.width
        (member_rows form.now text.now h depth (filling kind (members_from d s.now)))
        c.old out.old c.new out.new }
{
    // By hand: a member's own members are written from the tail.
    let mut t = s;
    while t.len() >= PARTICLE_SIZE {
        let own = layout::particle_depth(t) as usize;
        if c.left == 0 {
            return;
        }
        if own < d {
            return;
        }
        if is_passed(t, own, d, kind) {
            t = &t[PARTICLE_SIZE..];
        } else {
            put_member(t, d, form, text, h, depth, c, out);
            match kind {
                GroupKind::Sequence => t = &t[PARTICLE_SIZE..],
                GroupKind::Choice => return,
            }
        }
    }
}

// Writes the filling of the particle of depth d that s begins with. Of the groups only a CHOICE is asked whether it
// accepts nothing, as in `fills_nothing`, which would be called here but for the frame on the stack.
#[cycle(put_below_put_definition_put_group_put_member)]
fn put_member(
    s: &[u8],
    d: usize,
    form: &Form<'_>,
    text: &[u8],
    h: usize,
    depth: usize,
    c: &mut Cursor,
    out: &mut [u8],
)
    requires { (d < 256) × (particle_size ≤ length s.now) × Asks form.now c.old text.now h depth }
    ensures { Written form.now.width (member_rows form.now text.now h depth (member_filling d s.now))
        c.old out.old c.new out.new }
{
    let p = model::read_particle(s, 0);
    let q = p.quantifier;
    let what = p.what;
    if model::skips(q) {
        return;
    }
    match what {
        What::Element(i) => put_definition(i, form, text, h, depth, c, out),
        What::Group(k, _) => {
            let t = &s[PARTICLE_SIZE..];
            if needs_no_element(t, d + 1) {
                return;
            }
            if k == GroupKind::Choice && accepts_nothing(t, d + 1, GroupKind::Choice) {
                return;
            }
            put_group(t, d + 1, k, form, text, h, depth, c, out)
        }
    }
}

// Writes the filling of definition i, of at most the height h: its element, its attributes, and what stands below it.
#[cycle(put_below_put_definition_put_group_put_member)]
fn put_definition(
    i: usize,
    form: &Form<'_>,
    text: &[u8],
    h: usize,
    depth: usize,
    c: &mut Cursor,
    out: &mut [u8],
)
    requires { (i ≤ 256) × Asks form.now c.old text.now h depth }
    ensures { Written form.now.width (definition_rows form.now text.now h depth i)
        c.old out.old c.new out.new }
{
    if h == 0 {
        return;
    }
    let w = form.width;
    row_writer::put_new(w, u8::from(RowSort::Element), depth, i, &text[..0], c, out);
    put_required(form, i, depth + 1, c, out);
    put_below(i, form, text, h - 1, depth + 1, c, out)
}

// Writes the text of definition i, or the filling of its top list.
#[cycle(put_below_put_definition_put_group_put_member)]
fn put_below(
    i: usize,
    form: &Form<'_>,
    text: &[u8],
    h: usize,
    depth: usize,
    c: &mut Cursor,
    out: &mut [u8],
)
    requires { (i ≤ 256) × Asks form.now c.old text.now h depth }
    ensures { Written form.now.width (below_rows form.now text.now h depth i)
        c.old out.old c.new out.new }
{
    match form_index::content_kind(form.definitions, i) {
        Kind::Empty => {}
        Kind::Pcdata => row_writer::put_new(
            form.width,
            u8::from(RowSort::Text),
            depth,
            0,
            text,
            c,
            out,
        ),
        Kind::Complex => {
            let s = form_index::model_part(form.definitions, form.particles, i);
            if needs_no_element(s, 0) {
                return;
            }
            put_group(s, 0, GroupKind::Sequence, form, text, h, depth, c, out)
        }
    }
}

// Writes the filling of the group of a kind whose members of depth d begin with particle number `first`.
fn put_members(
    kind: GroupKind,
    first: usize,
    d: usize,
    form: &Form<'_>,
    text: &[u8],
    h: usize,
    depth: usize,
    c: &mut Cursor,
    out: &mut [u8],
)
    requires { (first ≤ 256) × (d ≤ 256) × Asks form.now c.old text.now h depth }
    ensures { Written form.now.width
        (member_rows form.now text.now h depth
        (group_filled kind (members_read_at form.now.particles.now first d)))
        c.old out.old c.new out.new }
{
    let s = layout::particles_from(form.particles, first);
    if fills_nothing(s, d, kind) {
        return;
    }
    put_group(s, d, kind, form, text, h, depth, c, out)
}

/// Writes what a change fills with, as rows of depth `depth`.
pub fn put_filling(
    what: Filling,
    form: &Form<'_>,
    text: &[u8],
    depth: usize,
    c: &mut Cursor,
    out: &mut [u8],
)
    requires { Indexed what × Asks form.now c.old text.now form.now.definition_count depth }
    ensures { Written form.now.width (fill_with form.now what text.now depth) c.old out.old c.new out.new }
{
    let h = form.definition_count;
    match what {
        Filling::Nothing => {}
        Filling::Definition(i) => put_definition(i, form, text, h, depth, c, out),
        Filling::Attribute(j) => row_writer::put_new(
            form.width,
            u8::from(RowSort::Attribute),
            depth,
            j,
            text,
            c,
            out,
        ),
        Filling::Particles(k, first, d) => put_members(k, first, d, form, text, h, depth, c, out),
    }
}
