//! The particles of a content model, by its text: measured and written.
#![tactic(auto)]

ghost use Rattle.std.specs.Prelude.{◌≡◌, true, false, [], suc, ◌+◌, ◌*◌, ◌%◌, ◌<◌, ◌≤◌, length};
ghost use Rattle.rules.specs.Layout.{group_code, quantifier_code, each, particle_bytes, particle_size};
ghost use Rattle.codec.specs.Laid.{Laid};
ghost use Rattle.declaration_scan.specs.Declared.{element_here, group_here, model_from, model_of_content};
ghost use Rattle.declaration_scan.specs.Names.{written_names};
ghost use Rattle.model_scan.specs.Scanning.{depth_after, kind_after, count_on, Groups, starts_here, shallow, Measures, starting_here};

use rules::{GroupKind, Kind, Quantifier};

// How deep the byte after x stands.
fn depth_after(x: u8, depth: usize) -> usize
    requires { suc depth < 18446744073709551616 }
    ensures { result ≡ depth_after x depth }
{
    match x {
        b'(' => depth + 1,
        b')' => layout::minus(depth, 1),
        _ => depth,
    }
}

// The kind of a group by its separator, where x is one of its own.
fn kind_after(x: u8, nest: usize, kind: GroupKind) -> GroupKind
    ensures { group_code result ≡ kind_after x nest (group_code kind) }
{
    match x {
        b',' if nest == 0 => GroupKind::Sequence,
        b'|' if nest == 0 => GroupKind::Choice,
        _ => kind,
    }
}

// One more where something is counted.
fn counted(it: bool, n: usize) -> usize
    requires { suc n < 18446744073709551616 }
    ensures { result ≡ count_on it n }
{
    if it { n + 1 } else { n }
}

// The members are one more than the separators; as the byte that counts them.
fn members(signs: usize) -> u8
    ensures { result ≡ suc signs % 256 }
{
    ((signs % 256 + 1) % 256) as u8
}

// What is seen of a group by its text: its kind, how many members, its quantifier.
#[derive(Clone, Copy)]
struct Group {
    kind: GroupKind,
    count: u8,
    mark: Quantifier,
}

// The group whose text is this, after its `(`.
fn grouped_at(text: &[u8]) -> Group
    ensures { Groups text.now (group_code result.kind) result.count (quantifier_code result.mark) }
{
    let mut nest = 0;
    let mut kind = GroupKind::Sequence;
    let mut signs = 0;
    for (i, &x) in text.iter().enumerate() {
        if (x == b')') & (nest == 0) {
            let mark = declaration_scan::mark_code(codec::after(text, i + 1));
            let count = members(signs);
            return Group { kind, count, mark };
        }
        kind = kind_after(x, nest, kind);
        signs = counted((nest == 0) & ((x == b',') | (x == b'|')), signs);
        nest = depth_after(x, nest);
    }
    let count = members(signs);
    Group {
        kind,
        count,
        mark: Quantifier::None,
    }
}

// Whether a particle begins at x.
fn starts_here(x: u8, inside: bool) -> bool
    ensures { result ≡ starts_here x inside }
{
    (x == b'(') | (byte_check::in_name(x) & !inside)
}

/// How many particles a content model has, and whether none is too deep. No `Option`: the record of a definition says
/// the number in any case.
#[derive(Clone, Copy)]
pub struct Measured {
    pub count: usize,
    pub shallow: bool,
}

// The particles of a content model, measured.
fn measure_model(text: &[u8]) -> Measured
    ensures { Measures (model_from [] 0 false text.now) result.count result.shallow }
{
    let mut depth = 0;
    let mut inside = false;
    let mut count = 0;
    let mut shallow = true;
    for &x in text {
        let starts = starts_here(x, inside);
        count = counted(starts, count);
        shallow = shallow & (!starts | (depth <= 4));
        depth = depth_after(x, depth);
        inside = byte_check::in_name(x);
    }
    Measured { count, shallow }
}

// Writes the group whose text is this, after its `(`.
fn put_group(text: &[u8], depth: u8, out: &mut [u8], at: usize) -> usize
    requires { at < 4611686018427387904 }
    ensures { Laid (particle_bytes (group_here depth text.now)) out.old at result out.new }
{
    let group = grouped_at(text);
    layout_writer::put_new_particle(Some(group.kind), group.mark, group.count, depth, out, at)
}

// Writes the element that stands here, of one of n definitions; the number n if none of them has its name.
fn put_element(defs: &[u8], n: usize, text: &[u8], depth: u8, out: &mut [u8], at: usize) -> usize
    requires { (n ≤ 64) × (20 * n ≤ length defs.now) × (at < 4611686018427387904) }
    ensures { Laid (particle_bytes (element_here (written_names n defs.now) depth text.now)) out.old at result out.new }
{
    let name = declaration_scan::name_here(text);
    let place = declaration_scan::definition_place(defs, n, name).unwrap_or(n);
    let mark = declaration_scan::mark_code(declaration_scan::after_name(text));
    layout_writer::put_new_particle(None, mark, place as u8, depth, out, at)
}

// Writes the particle that begins at the first byte, if one does.
fn put_here(
    defs: &[u8],
    n: usize,
    text: &[u8],
    inside: bool,
    depth: usize,
    out: &mut [u8],
    at: usize,
) -> usize
    requires { (n ≤ 64) × (20 * n ≤ length defs.now) × (0 < length text.now)
        × (shallow (starting_here (written_names n defs.now) depth inside text.now) ≡ true) × (at < 4611686018427387904) }
    ensures { Laid (each particle_bytes (starting_here (written_names n defs.now) depth inside text.now)) out.old at result out.new }
{
    let x = codec::byte(text, 0);
    if !starts_here(x, inside) {
        return at;
    }
    if x == b'(' {
        return put_group(codec::after(text, 1), depth as u8, out, at);
    }
    put_element(defs, n, text, depth as u8, out, at)
}

// Writes the particles of a content model, none of them too deep, over n definitions.
fn put_model(defs: &[u8], n: usize, text: &[u8], out: &mut [u8], start: usize) -> usize
    requires { (n ≤ 64) × (20 * n ≤ length defs.now) × (shallow (model_from (written_names n defs.now) 0 false text.now) ≡ true)
        × (start + particle_size * length (model_from (written_names n defs.now) 0 false text.now) < 2305843009213693952) }
    ensures { Laid (each particle_bytes (model_from (written_names n defs.now) 0 false text.now)) out.old start result out.new }
{
    let mut depth = 0;
    let mut inside = false;
    let mut at = start;
    for (i, &x) in text.iter().enumerate() {
        at = put_here(defs, n, codec::after(text, i), inside, depth, out, at);
        depth = depth_after(x, depth);
        inside = byte_check::in_name(x);
    }
    at
}

// ---- the content of a definition

/// The particles of the content of a definition, measured.
pub fn measure_content(content: &[u8]) -> Measured
    ensures { Measures (model_of_content [] content.now) result.count result.shallow }
{
    if declaration_scan::declared_kind(content) == Kind::Complex {
        return measure_model(codec::after(content, 1));
    }
    Measured {
        count: 0,
        shallow: true,
    }
}

/// Writes the particles of the content of a definition, none of them too deep, over n definitions.
pub fn put_content(defs: &[u8], n: usize, content: &[u8], out: &mut [u8], at: usize) -> usize
    requires { (n ≤ 64) × (20 * n ≤ length defs.now) × (shallow (model_of_content (written_names n defs.now) content.now) ≡ true)
        × (at + particle_size * length (model_of_content (written_names n defs.now) content.now) < 2305843009213693952) }
    ensures { Laid (each particle_bytes (model_of_content (written_names n defs.now) content.now)) out.old at result out.new }
{
    if declaration_scan::declared_kind(content) == Kind::Complex {
        return put_model(defs, n, codec::after(content, 1), out, at);
    }
    at
}
