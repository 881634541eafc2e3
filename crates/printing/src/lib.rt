//! The text of a store: its form as declarations, and its documents, a line each.
#![tactic(auto)]

ghost use Rattle.std.specs.Prelude.{◌<◌};
ghost use Rattle.codec.specs.Laid.{Laid};
ghost use Rattle.rules.specs.Decode.{read_definition, definition_count, particle_count, attribute_count};
ghost use Rattle.printing.specs.Texts.{Within, Ends, declarations_text, form_text, text_of};
ghost use Rattle.printing_parts.specs.Parts.{definition_part, names_of, definitions_from, particles_from, attributes_from};
ghost use Rattle.declaration_printing.specs.Declarations.{LaidWithin};

use layout::rows::Rows;

// The number past n particles from number `from` on, or past the last particle.
fn model_end(store: &[u8], from: usize, n: usize) -> usize
    requires { (from < 1099511627776) × (n < 4294967296) }
    ensures { Ends store.now from n result }
{
    let count = layout::particle_count(store);
    let end = from + n;
    if end < count { end } else { count }
}

// Writes the lines of definition o and of its attributes; its particles begin at number `from`.
fn put_declarations(store: &[u8], o: usize, from: usize, out: &mut [u8], at: usize) -> usize
    requires { Within store.now × (o < definition_count store.now) × (from < 1099511627776) × (at < 576460752303423488) }
    ensures { LaidWithin 840000
        (declarations_text (names_of store.now) o (read_definition (definition_part store.now o))
        (particles_from store.now (particle_count store.now) from)
        (attributes_from store.now (attribute_count store.now) 0))
        out.old at result out.new }
{
    let n = layout::definition_particles(printing_parts::definition(store, o)) as usize;
    let end = model_end(store, from, n);
    let defined = declaration_printing::put_definition(store, o, from, end, out, at);
    declaration_printing::put_attributes(store, o, printing_parts::name_of(store, o), out, defined)
}

// Writes the declarations of the form.
fn put_form(store: &[u8], out: &mut [u8], start: usize) -> usize
    requires { Within store.now × (start < 288230376151711744) }
    ensures { LaidWithin 53760000
        (form_text (names_of store.now) 0 (definitions_from store.now (definition_count store.now) 0)
        (particles_from store.now (particle_count store.now) 0)
        (attributes_from store.now (attribute_count store.now) 0))
        out.old start result out.new }
{
    let count = layout::definition_count(store);
    let mut at = start;
    let mut from = 0;
    for o in 0..count {
        at = put_declarations(store, o, from, out, at);
        from += layout::definition_particles(printing_parts::definition(store, o)) as usize;
    }
    at
}

/// Writes the text of a store, as far as out goes, and returns its length.
pub fn print_store(store: &[u8], out: &mut [u8]) -> usize
    requires { Within store.now }
    ensures { Laid (text_of store.now) out.old 0 result out.new }
{
    let rows = Rows {
        width: layout::width_in(store),
        bytes: lookup::from_rows(store),
        count: layout::row_count(store),
    };
    let formed = put_form(store, out, 0);
    document_printing::put_documents(store, rows, out, formed)
}
