//! What a place leads to in a model of a store that passes, and what the changes 3 to 8 ask of the list that holds it.
#![tactic(auto)]

ghost use Rattle.std.specs.Prelude.{◌≡◌, true, ◌<◌, ◌≤◌};
ghost use Rattle.rules.specs.Layout.{how_many};
ghost use Rattle.rules.specs.Decode.{definition_count};
ghost use Rattle.rules.specs.Passing.{passes};
ghost use Rattle.model.specs.Members.{members_from};
ghost use Rattle.model_places.specs.Placing.{part_in, Picking};

use layout::PARTICLE_SIZE;
use model::Particle;
use model::place::Found;

/// What a place leads to in a model: the particle there, an element or a group.
#[derive(Clone, Copy)]
pub struct Picked {
    pub place: Found,
    pub member: Particle,
}

/// A definition's part of the particle body.
pub fn own_part(store: &[u8], owner: usize) -> &[u8]
    requires { owner ≤ 256 }
    ensures { result.now ≡ part_in store.now owner }
{
    let definitions = layout::definitions_of(store);
    let particles = layout::particles_of(store);
    form_index::model_part(definitions, particles, owner)
}

/// What a place leads to in a definition's model.
pub fn pick(store: &[u8], owner: u32, place: &[u32]) -> Option<Picked>
    requires { (passes store.now ≡ true) × (owner < definition_count store.now) }
    ensures { Picking store.now owner place.now result }
{
    let part = own_part(store, owner as usize);
    let place = place_lookup::find(part, place, false)?;
    let member = model::read_particle(layout::particles_from(part, place.particle), 0);
    Some(Picked { place, member })
}

/// How many members of depth d s begins with.
pub fn count_members(s: &[u8], d: usize) -> usize
    ensures { result ≡ how_many (members_from d s.now) }
{
    s.chunks_exact(PARTICLE_SIZE)
        .take_while(|particle| d <= layout::particle_depth(particle) as usize)
        .filter(|particle| layout::particle_depth(particle) as usize == d)
        .count()
}
