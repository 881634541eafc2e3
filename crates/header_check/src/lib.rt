//! The test of the header: version, next serial, counts, offsets and the length that they give.
#![tactic(auto)]

ghost use Rattle.std.specs.Prelude.{◌≡◌};
ghost use Rattle.rules.specs.Decode.{sized};
ghost use Rattle.layout.specs.Bodies.{Width};
ghost use Rattle.records.specs.Records.{counts_fit, offsets_fit, header_fits};

const BASE_VERSION: usize = 1;

// Whether the counts are within the ceilings.
fn counts_fit(store: &[u8]) -> bool
    ensures { result ≡ counts_fit store.now }
{
    let definitions = layout::definition_count(store);
    let particles = layout::particle_count(store);
    let attributes = layout::attribute_count(store);
    let rows = layout::row_count(store);
    (definitions <= layout::MAX_DEFINITIONS)
        & ((particles <= layout::MAX_PARTICLES)
            & ((attributes <= layout::MAX_ATTRIBUTES) & (rows <= layout::MAX_ROWS)))
}

// Whether each body begins where the one before it ends.
fn offsets_fit(w: usize, store: &[u8]) -> bool
    requires { Width w }
    ensures { result ≡ offsets_fit w store.now }
{
    let n = layout::definition_count(store);
    let p = layout::particle_count(store);
    let at_particles = layout::through_definitions(n);
    let at_attributes = layout::through_particles(n, p);
    let at_rows = layout::through_attributes(w, n, p, layout::attribute_count(store));
    let definitions = layout::definition_offset(store);
    let particles = layout::particle_offset(store);
    let attributes = layout::attribute_offset(store);
    let rows = layout::row_offset(store);
    (definitions == layout::through_definitions(0))
        & ((particles == at_particles) & ((attributes == at_attributes) & (rows == at_rows)))
}

// Whether the string is as long as its counts say.
fn is_sized(w: usize, store: &[u8]) -> bool
    requires { Width w }
    ensures { result ≡ sized w store.now }
{
    let n = layout::definition_count(store);
    let p = layout::particle_count(store);
    let a = layout::attribute_count(store);
    store.len() == layout::through_rows(w, n, p, a, layout::row_count(store))
}

/// Whether a header stands at the front of a string: a known version, a next
/// serial, counts and offsets that the length agrees with.
pub fn header_fits(w: usize, store: &[u8]) -> bool
    requires { Width w }
    ensures { result ≡ header_fits w store.now }
{
    let version = layout::version_in(store);
    let next = layout::next_serial(store);
    (layout::through_definitions(0) <= store.len())
        & ((version == BASE_VERSION)
            & (counts_fit(store) & (offsets_fit(w, store) & (is_sized(w, store) & (1 <= next)))))
}
