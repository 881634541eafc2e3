//! The tests of a form's bodies that look at more than one record. Every loop is bounded by a count of records.
#![tactic(auto)]

ghost use Rattle.std.specs.Prelude.{◌≡◌, ◌+◌, ◌-◌, ◌<◌, ℕ, Bool};
ghost use Rattle.std.specs.List.{list_any, range_with_len};
ghost use Rattle.rules.specs.Layout.{definition_size, particle_size, attribute_size};
ghost use Rattle.layout.specs.Bodies.{Width};
ghost use Rattle.form_check.specs.FormTests.{clashes, definitions_apart, models_fit, owners_rise, attributes_apart, bodies_fit};
ghost use Rattle.form_check.specs.Bodies.{Body, BodiesOf, definition_record_at, attribute_record_at, definitions_of, attributes_of, flat_form, same_name};
ghost use Rattle.model_check.specs.Particles.{particles_read, apart};

use layout::Form;

// ---- pairs

// Whether a number after i, below n, clashes with it.
fn clashes_later<F: Fn(usize, usize) -> bool>(i: usize, n: usize, clash: &F) -> bool
    requires { (i < n) × ((j : ℕ) → j < n → F.pre clash.now i j) }
    ensures { (c : ℕ → ℕ → Bool) → ((i j : ℕ) (r : Bool) → F.post clash.now i j r → r ≡ c i j)
        → result ≡ list_any (c i) (range_with_len (i + 1) (n - (i + 1))) }
{
    (i + 1..n).any(
        |j: usize|
            requires { F.pre clash.now i j }
            ensures { F.post clash.entry.now i j result }
        { clash(i, j) },
    )
}

// Whether no two of the numbers below n clash: n * (n - 1) / 2 questions.
fn none_clash<F: Fn(usize, usize) -> bool>(n: usize, clash: F) -> bool
    requires { (i j : ℕ) → i < n → j < n → F.pre clash i j }
    ensures { (c : ℕ → ℕ → Bool) → ((i j : ℕ) (r : Bool) → F.post clash i j r → r ≡ c i j)
        → result ≡ apart c (range_with_len 0 n) }
{
    !(0..n).any(|i| clashes_later(i, n, &clash))
}

// ---- the definitions

fn definition_name<'a>(form: &Form<'a>, i: usize) -> &'a [u8]
    requires { i < 64 }
    ensures { result.now ≡ (definition_record_at i form.now.definitions.now).name }
{
    layout::definition_name(layout::definition_at(form.definitions, i))
}

// Whether definitions i and j have one name.
fn same_name(form: &Form<'_>, i: usize, j: usize) -> bool
    requires { (i < 64) × (j < 64) }
    ensures { result ≡ same_name (definition_record_at i form.now.definitions.now) (definition_record_at j form.now.definitions.now) }
{
    codec::equal(definition_name(form, i), definition_name(form, j))
}

/// Whether no two definitions have one name: at most 64 * 63 / 2 comparisons.
pub fn definitions_apart(form: &Form<'_>) -> bool
    requires { Body 64 definition_size form.now.definition_count form.now.definitions.now }
    ensures { result ≡ definitions_apart (definitions_of form.now) }
{
    none_clash(form.definition_count, |i, j| same_name(form, i, j))
}

// ---- the attributes

fn attribute_name<'a>(form: &Form<'a>, i: usize) -> &'a [u8]
    requires { Width form.now.width × (i < 64) }
    ensures { result.now ≡ (attribute_record_at form.now.width i form.now.attributes.now).name }
{
    layout::attribute_name(layout::attribute_at(form.width, form.attributes, i))
}

fn attribute_owner(form: &Form<'_>, i: usize) -> usize
    requires { Width form.now.width × (i < 64) }
    ensures { result ≡ (attribute_record_at form.now.width i form.now.attributes.now).owner }
{
    layout::attribute_owner_at(form.width, form.attributes, i)
}

// Whether attributes i and j have one owner and one name.
fn same_attribute(form: &Form<'_>, i: usize, j: usize) -> bool
    requires { Width form.now.width × (i < 64) × (j < 64) }
    ensures { result ≡ clashes (attribute_record_at form.now.width i form.now.attributes.now) (attribute_record_at form.now.width j form.now.attributes.now) }
{
    let named = codec::equal(attribute_name(form, i), attribute_name(form, j));
    (attribute_owner(form, i) == attribute_owner(form, j)) & named
}

/// Whether no two attributes have one owner and one name: at most 64 * 63 / 2 comparisons.
pub fn attributes_apart(form: &Form<'_>) -> bool
    requires { Width form.now.width × Body 64 (attribute_size form.now.width) form.now.attribute_count form.now.attributes.now }
    ensures { result ≡ attributes_apart (attributes_of form.now) }
{
    none_clash(form.attribute_count, |i, j| same_attribute(form, i, j))
}

/// Whether the attributes stand in the order of their owners.
pub fn owners_rise(form: &Form<'_>) -> bool
    requires { Width form.now.width × Body 64 (attribute_size form.now.width) form.now.attribute_count form.now.attributes.now }
    ensures { result ≡ owners_rise 0 (attributes_of form.now) }
{
    let mut least: usize = 0;
    for i in 0..form.attribute_count {
        let o = attribute_owner(form, i);
        if o < least {
            return false;
        }
        least = o;
    }
    true
}

// ---- the particles, and all

/// Whether the particles are the models of the definitions, one after the other: each particle is in one model at most.
pub fn models_fit(form: &Form<'_>) -> bool
    requires { Body 64 definition_size form.now.definition_count form.now.definitions.now × Body 256 particle_size form.now.particle_count form.now.particles.now }
    ensures { result ≡ models_fit form.now.definition_count (definitions_of form.now) (particles_read form.now.particle_count form.now.particles.now) }
{
    let n = form.definition_count;
    let mut at: usize = 0;
    for i in 0..n {
        let size = layout::definition_particles_at(form.definitions, i) as usize;
        if form.particle_count - at < size {
            return false;
        }
        if !model_check::model_fits(n, size, layout::particles_part(form.particles, at, size)) {
            return false;
        }
        at += size;
    }
    at == form.particle_count
}

/// Whether the three bodies of a form fit together. At the ceilings: 64 * 63 / 2 pairs of definitions and as many of
/// attributes, and 256 * 255 particles looked at.
pub fn bodies_fit(form: &Form<'_>) -> bool
    requires { BodiesOf form.now }
    ensures { result ≡ bodies_fit (flat_form form.now) }
{
    definitions_apart(form) & (models_fit(form) & (owners_rise(form) & attributes_apart(form)))
}
