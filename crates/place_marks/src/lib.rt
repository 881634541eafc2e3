//! Marks of the definitions around a place of a model: new rows stand
//! after the children that belong to earlier particles.
#![tactic(auto)]

ghost use Rattle.std.specs.Prelude.{◌≡◌, ◌≤◌};
ghost use Rattle.circle_check.specs.Members.{elements_of};
ghost use Rattle.place_marks.specs.Marking.{marked_first, marked, marks_at};

use layout::{MAX_DEFINITIONS, PARTICLE_SIZE};
use model::What;

// The value for the definition of a particle, if that is an element.
fn mark_first(particle: &[u8], value: u8, marks: &mut [u8])
    ensures { marks.new ≡ marked_first value particle.now marks.old }
{
    if let What::Element(i) = model::read_particle(particle, 0).what {
        codec::store(marks, i, value);
    }
}

// The value for the definition of each element among the particles.
fn mark(particles: &[u8], value: u8, marks: &mut [u8])
    ensures { marks.new ≡ marked value (elements_of particles.now) marks.old }
{
    for particle in particles.chunks_exact(PARTICLE_SIZE) {
        mark_first(particle, value, marks);
    }
}

/// 1 for the definitions of the elements among the first p particles of a part, 2 for those among the next n.
pub fn marks(part: &[u8], p: usize, n: usize) -> [u8; MAX_DEFINITIONS]
    requires { (p ≤ 256) × (n ≤ 257) }
    ensures { result ≡ marks_at n p part.now }
{
    let start = PARTICLE_SIZE * p;
    let long = PARTICLE_SIZE * n;
    let mut of = [0; MAX_DEFINITIONS];
    mark(layout::window(part, 0, start), 1, &mut of);
    mark(layout::window(part, start, long), 2, &mut of);
    of
}
