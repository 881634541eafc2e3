//! Whether a definition stands in the model of another, or reaches it.
#![tactic(auto)]

ghost use Rattle.std.specs.Prelude.{◌≡◌, true, not, ◌<◌, eqb};
ghost use Rattle.rules.specs.Bytes.{all};
ghost use Rattle.rules.specs.Decode.{definition_count};
ghost use Rattle.rules.specs.Passing.{passes};
ghost use Rattle.circle_check.specs.Members.{elements_of};
ghost use Rattle.circle_check.specs.Deep.{first_passes};
ghost use Rattle.store_laws.specs.Stores.{store_in};
ghost use Rattle.model_reach.specs.Reach.{stands_in_model, comes_round};

use layout::PARTICLE_SIZE;
use model::What;

// Whether a particle is the element with index i.
fn is_element(particle: &[u8], i: usize) -> bool
    ensures { not result ≡ first_passes (λ j. not (eqb i j)) particle.now }
{
    match model::read_particle(particle, 0).what {
        What::Element(j) => i == j,
        What::Group(_, _) => false,
    }
}

// Whether no element among the particles has the index i.
fn lacks(part: &[u8], i: usize) -> bool
    ensures { result ≡ all (λ j. not (eqb i j)) (elements_of part.now) }
{
    part.chunks_exact(PARTICLE_SIZE)
        .all(|particle| !is_element(particle, i))
}

/// Whether definition i stands in the model of definition o.
pub fn in_model(store: &[u8], o: usize, i: usize) -> bool
    requires { (passes store.now ≡ true) × (o < definition_count store.now) × (i < definition_count store.now) }
    ensures { result ≡ stands_in_model (store_in store.now).form o i }
{
    !lacks(model_places::own_part(store, o), i)
}

/// Whether definition i is definition o or reaches it.
pub fn comes_round(store: &[u8], o: usize, i: usize) -> bool
    requires { (passes store.now ≡ true) × (o < definition_count store.now) × (i < definition_count store.now) }
    ensures { result ≡ comes_round (store_in store.now).form o i }
{
    let n = layout::definition_count(store);
    let defs = layout::definitions_of(store);
    let parts = layout::particles_of(store);
    let heights = circle_check::heights_avoiding(n, defs, parts, o);
    codec::byte(&heights, i) == 0
}
