//! What the text of a store is made of: the records of its form, by their numbers, and their names.
#![tactic(auto)]

ghost use Rattle.std.specs.Prelude.{◌≡◌, ◌<◌};
ghost use Rattle.rules.specs.Decode.{name_at};
ghost use Rattle.printing_parts.specs.Parts.{Named, definition_part, particle_part, attribute_part, names_of, attribute_names_of};

// ---- records, by the names that the laws of the text have for their bytes, which layout's own calls do not say

/// The bytes of definition i, counted from 0.
pub fn definition(store: &[u8], i: usize) -> &[u8]
    requires { i < 4294967296 }
    ensures { result.now ≡ definition_part store.now i }
{
    layout::definition_in(store, i)
}

/// The bytes of particle i, counted from 0.
pub fn particle(store: &[u8], i: usize) -> &[u8]
    requires { i < 4294967296 }
    ensures { result.now ≡ particle_part store.now i }
{
    layout::particle_in(store, i)
}

/// The bytes of attribute i, counted from 0.
pub fn attribute(store: &[u8], i: usize) -> &[u8]
    requires { i < 4294967296 }
    ensures { result.now ≡ attribute_part store.now i }
{
    layout::attribute_in(store, i)
}

/// The name of definition i, or none.
pub fn name_of(store: &[u8], i: usize) -> &[u8]
    ensures { Named (name_at i (names_of store.now)) result.now }
{
    if layout::definition_count(store) <= i {
        return &store[..0];
    }
    layout::definition_name(definition(store, i))
}

/// The name of attribute i, or none.
// As `name_of`, of the other table: one for both would take the count, the record and its name, and be no shorter.
pub fn attribute_name_of(store: &[u8], i: usize) -> &[u8]
    ensures { Named (name_at i (attribute_names_of store.now)) result.now }
{
    if layout::attribute_count(store) <= i {
        return &store[..0];
    }
    layout::attribute_name(attribute(store, i))
}

// ---- depths

/// Where a writer that follows depths came to: the place in the buffer, and the number of the next record.
#[derive(Clone, Copy)]
pub struct Walked {
    pub at: usize,
    pub next: usize,
}
