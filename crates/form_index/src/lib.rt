//! A form by indices: definition i's kind and its part of the particles,
//! which attributes it needs, which values they may have.
#![tactic(auto)]

ghost use Rattle.std.specs.Prelude.{◌≡◌, ◌&&◌, ◌*◌, ◌<◌, ◌≤◌, eqb};
ghost use Rattle.rules.specs.Decode.{sort_of};
ghost use Rattle.rules.specs.Kinds.{kind_by};
ghost use Rattle.rules.specs.Conforming.{must_be_present, allows};
ghost use Rattle.layout.specs.Bodies.{Width};
ghost use Rattle.form_index.specs.Reading.{definition_in, attribute_in, particles_before, model_part};

use layout::PARTICLE_SIZE;
use rules::{AttributeSort, Kind};

// ---- definitions
/// Definition i's kind.
pub fn content_kind(defs: &[u8], i: usize) -> Kind
    requires { i ≤ 256 }
    ensures { result ≡ kind_by (definition_in defs.now i).kind }
{
    Kind::from(layout::definition_kind(layout::definition_at(defs, i)))
}

/// How many particles definition i has.
pub fn model_length(defs: &[u8], i: usize) -> usize
    requires { i ≤ 256 }
    ensures { (result ≡ (definition_in defs.now i).particles) × (result < 4294967296) }
{
    layout::definition_particles(layout::definition_at(defs, i)) as usize
}

/// How many particles stand before definition i's.
pub fn particles_before(defs: &[u8], i: usize) -> usize
    requires { i ≤ 256 }
    ensures { (result ≡ particles_before defs.now i) × (result ≤ 4294967296 * 256) }
{
    let mut sum = 0;
    for j in 0..i {
        sum += model_length(defs, j);
    }
    sum
}

/// Definition i's part of the particles.
pub fn model_part<'a>(defs: &[u8], parts: &'a [u8], i: usize) -> &'a [u8]
    requires { i ≤ 256 }
    ensures { result.now ≡ model_part defs.now parts.now i }
{
    layout::window(
        parts,
        PARTICLE_SIZE * particles_before(defs, i),
        PARTICLE_SIZE * model_length(defs, i),
    )
}

// ---- attributes
/// Whether attribute j may have the value v.
pub fn value_may(w: usize, attrs: &[u8], j: usize, v: &[u8]) -> bool
    requires { Width w × (j ≤ 64) }
    ensures { result ≡ allows (sort_of (attribute_in w attrs.now j).sort) (attribute_in w attrs.now j).value v.now }
{
    let record = layout::attribute_at(w, attrs, j);
    let sort = AttributeSort::from(layout::attribute_sort(record));
    records::value_allowed(sort, layout::attribute_value(record), v)
}

/// Whether attribute j is one that definition i needs.
pub fn needs(version: usize, w: usize, attrs: &[u8], i: usize, j: usize) -> bool
    requires { Width w × (j ≤ 64) }
    ensures { result ≡ (eqb (attribute_in w attrs.now j).owner i && must_be_present version (sort_of (attribute_in w attrs.now j).sort)) }
{
    let record = layout::attribute_at(w, attrs, j);
    let sort = AttributeSort::from(layout::attribute_sort(record));
    (layout::attribute_owner(record) == i) & records::must_be_present(version, sort)
}
