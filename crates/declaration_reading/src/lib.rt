//! The form that the declarations of a text say, read into the bytes of a store without rows.
#![tactic(auto)]

ghost use Rattle.std.specs.Prelude.{◌≡◌, true, ◌&&◌, [], ◌∷◌, ◌+◌, ◌*◌, ◌<◌, ◌≤◌, leb, length};
ghost use Rattle.rules.specs.WellFormed.{within_ceilings};
ghost use Rattle.rules.specs.Layout.{flat_bytes};
ghost use Rattle.codec.specs.Laid.{Laid};
ghost use Rattle.layout.specs.Bodies.{Width};
ghost use Rattle.declaration_scan.specs.Declared.{is_declaration, definitions_of_lines, particles_of_lines, declarations, declared_form};
ghost use Rattle.declaration_scan.specs.Names.{written_names};
ghost use Rattle.model_scan.specs.Scanning.{shallow};
ghost use Rattle.declaration_reading.specs.Lines.{first_line, Counted, owners_after, said_definitions, said_particles, said_attributes};
ghost use Rattle.declaration_reading.specs.Lines.{said_body, Ready, form_head, FormFits, form_bodies, FormRead};

// Bytes of as many definitions as the ceiling allows.
const DEFINITION_BYTES: usize = 1280;

// ---- lines

// Whether the first line is a declaration.
fn is_declaration(text: &[u8]) -> bool
    ensures { result ≡ is_declaration (first_line text.now) }
{
    text_scan::starts_with(text, b"<!")
}

// The first line.
fn line_here(text: &[u8]) -> &[u8]
    ensures { result.now ≡ first_line text.now }
{
    let n = text_scan::length_before(text, b'\n');
    codec::first(text, n)
}

// The declarations that a text begins with, line by line.
#[derive(Drop)]
struct Declarations<'a>(&'a [u8]);

impl<'a> Iterator for Declarations<'a> {
    type Item = &'a [u8];

    ghost use Rattle.std.specs.Prelude.{MatchOption};
    ghost use Rattle.std.specs.Iterator.{at_most};
    ghost use Rattle.declaration_reading.specs.Lines.{Cut};

    ghost next_gives = { λ s r t. MatchOption r (declarations s.0.now ≡ []) (λ line. Cut s.0.now line.now t.0.now) };

    ghost remaining = { λ s. at_most (length s.0.now) };

    fn next(&mut self) -> Option<&'a [u8]> {
        if !is_declaration(self.0) {
            return None;
        }
        let line = line_here(self.0);
        self.0 = codec::after(self.0, line.len() + 1);
        Some(line)
    }
}

// ---- the form, measured

// What declarations say of a form, counted, and whether no particle is too deep. A flag, and no `Option`: it is one of
// the four tests of `within`.
#[derive(Clone, Copy)]
struct Counts {
    definitions: usize,
    particles: usize,
    attributes: usize,
    shallow: bool,
}

// What one line says.
fn count_line(line: &[u8]) -> Counts
    ensures { Counted (line.now ∷ []) result.definitions result.particles result.attributes result.shallow }
{
    if !text_scan::starts_with(line, b"<!E") {
        return Counts {
            definitions: 0,
            particles: 0,
            attributes: 1,
            shallow: true,
        };
    }
    let measured = model_scan::measure_content(declaration_scan::after_declared(line));
    Counts {
        definitions: 1,
        particles: measured.count,
        attributes: 0,
        shallow: measured.shallow,
    }
}

// What all declarations say.
fn count_declarations(text: &[u8]) -> Counts
    ensures { Counted (declarations text.now) result.definitions result.particles result.attributes result.shallow }
{
    let mut definitions = 0;
    let mut particles = 0;
    let mut attributes = 0;
    let mut shallow = true;
    for line in Declarations(text) {
        let counts = count_line(line);
        definitions += counts.definitions;
        particles += counts.particles;
        attributes += counts.attributes;
        shallow = shallow & counts.shallow;
    }
    Counts {
        definitions,
        particles,
        attributes,
        shallow,
    }
}

// ---- the bodies, written line by line

// Writes the definition that a line declares, if it declares one.
fn put_definition_line(line: &[u8], out: &mut [u8], at: usize) -> usize
    requires { (length (particles_of_lines [] (line.now ∷ [])) ≤ 256) × (at < 1152921504606846976) }
    ensures { Laid (said_definitions (line.now ∷ [])) out.old at result out.new }
{
    if !text_scan::starts_with(line, b"<!E") {
        return at;
    }
    let content = declaration_scan::after_declared(line);
    let name = declaration_scan::declared_name(line);
    let kind = u8::from(declaration_scan::declared_kind(content));
    let measured = model_scan::measure_content(content);
    layout_writer::put_definition(name, kind, measured.count as u32, out, at)
}

// Writes the particles of the definition that a line declares, over n definitions.
fn put_particle_line(defs: &[u8], n: usize, line: &[u8], out: &mut [u8], at: usize) -> usize
    requires { (n ≤ 64) × (20 * n ≤ length defs.now) × (shallow (particles_of_lines (written_names n defs.now) (line.now ∷ [])) ≡ true)
        × (at + length (said_particles (written_names n defs.now) (line.now ∷ [])) < 1152921504606846976) }
    ensures { Laid (said_particles (written_names n defs.now) (line.now ∷ [])) out.old at result out.new }
{
    if !text_scan::starts_with(line, b"<!E") {
        return at;
    }
    model_scan::put_content(defs, n, declaration_scan::after_declared(line), out, at)
}

// How many definitions stand before the next line.
fn owners_after(line: &[u8], owners: usize) -> usize
    requires { owners < 4294967296 }
    ensures { result ≡ owners_after line.now owners }
{
    if text_scan::starts_with(line, b"<!E") {
        return owners + 1;
    }
    owners
}

// Writes the attribute that a line declares, if it declares one, of the last of so many definitions.
fn put_owned(w: usize, owners: usize, line: &[u8], out: &mut [u8], at: usize) -> usize
    requires { Width w × (owners ≤ 64) × (at < 1152921504606846976) }
    ensures { Laid (said_attributes w owners (line.now ∷ [])) out.old at result out.new }
{
    if text_scan::starts_with(line, b"<!E") {
        return at;
    }
    let owner = layout::minus(owners, 1);
    attribute_scan::put_attribute_line(w, owner as u8, line, out, at)
}

// One of the bodies: the definitions, the particles over so many definitions, the attributes at a width.
#[derive(Clone, Copy)]
enum Body {
    Definitions,
    Particles(usize),
    Attributes(usize),
}

// Writes what a line says of a body. So many definitions stand before it; the particles take names from `defs`.
fn put_line(body: Body, defs: &[u8], owners: usize, line: &[u8], out: &mut [u8], at: usize) -> usize
    requires { Ready body defs.now at owners (line.now ∷ []) }
    ensures { Laid (said_body body defs.now owners (line.now ∷ [])) out.old at result out.new }
{
    match body {
        Body::Definitions => put_definition_line(line, out, at),
        Body::Particles(n) => put_particle_line(defs, n, line, out, at),
        Body::Attributes(w) => put_owned(w, owners, line, out, at),
    }
}

// Writes what the declarations say of a body.
fn put_body(body: Body, defs: &[u8], text: &[u8], out: &mut [u8], start: usize) -> usize
    requires { Ready body defs.now start 0 (declarations text.now) }
    ensures { Laid (said_body body defs.now 0 (declarations text.now)) out.old start result out.new }
{
    let mut at = start;
    let mut owners = 0;
    for line in Declarations(text) {
        at = put_line(body, defs, owners, line, out, at);
        owners = owners_after(line, owners);
    }
    at
}

// ---- the form

// Whether so many records are within the ceilings.
fn within(counts: Counts) -> bool
    ensures { result ≡ (leb counts.definitions 64 && (leb counts.particles 256 && (counts.shallow && leb counts.attributes 64))) }
{
    (counts.definitions <= layout::MAX_DEFINITIONS)
        & ((counts.particles <= layout::MAX_PARTICLES)
            & (counts.shallow & (counts.attributes <= layout::MAX_ATTRIBUTES)))
}

// Writes the header of a store without rows, whose next serial is 1.
fn put_head(version: u32, w: usize, d: usize, p: usize, a: usize, form: &mut [u8]) -> usize
    requires { Width w × (d ≤ 64) × (p ≤ 256) × (a ≤ 64) }
    ensures { Laid (form_head version w d p a) form.old 0 result form.new }
{
    let first = codec::put_u32(form, 0, version);
    let second = codec::put_u32(form, first, 1);
    layout_writer::put_contents(w, d, p, a, 0, form, second)
}

// Writes the bodies of a form of d definitions. The definitions are written aside first: the particles take the places
// of names from them.
fn put_bodies(w: usize, d: usize, text: &[u8], form: &mut [u8], at: usize) -> usize
    requires { Width w × FormFits 0 (declarations text.now) × (d ≡ length (definitions_of_lines (declarations text.now))) × (at ≤ 40) }
    ensures { Laid (form_bodies w (declarations text.now)) form.old at result form.new }
{
    let mut defs = [0; DEFINITION_BYTES];
    let size = put_body(Body::Definitions, b"", text, &mut defs, 0);
    let defined = codec::put(&defs[..size], form, at);
    let modelled = put_body(Body::Particles(d), &defs, text, form, defined);
    put_body(Body::Attributes(w), &defs, text, form, modelled)
}

/// Reads the form that the declarations of a text say, of values of w bytes, as a store without rows; returns its
/// length, or none if it is not within the ceilings.
pub fn read_form(version: u32, w: usize, text: &[u8], form: &mut [u8]) -> Option<usize>
    requires { Width w }
    ensures { FormRead (flat_bytes w (declared_form version w text.now)) (within_ceilings (declared_form version w text.now))
        form.old result form.new }
{
    let counts = count_declarations(text);
    let d = counts.definitions;
    let p = counts.particles;
    let a = counts.attributes;
    if !within(counts) {
        return None;
    }
    let head = put_head(version, w, d, p, a, form);
    Some(put_bodies(w, d, text, form, head))
}
