//! The ceiling of depth: whether a model keeps to it after an edit.
#![tactic(auto)]

ghost use Rattle.std.specs.Prelude.{◌≡◌, true, ◌<◌};
ghost use Rattle.model.specs.Members.{particles_of};
ghost use Rattle.model_writer.specs.Writing.{edit_of, shift, depths_within};
ghost use Rattle.model_writer.specs.PartAfter.{moved, part_after};

use layout::PARTICLE_SIZE;
use model::place::Found;
use model_writer::Edit;

// Whether no particle is deeper than 4 once those of the first n members of
// depth d, and the deeper ones before them, are one deeper.
fn moved_within(ys: &[u8], d: usize, n: usize) -> bool
    requires { depths_within (particles_of ys.now) ≡ true }
    ensures { result ≡ depths_within (moved (shift true) d n (particles_of ys.now)) }
{
    let mut m = n;
    for particle in ys.chunks_exact(PARTICLE_SIZE) {
        let depth = layout::particle_depth(particle) as usize;
        let inner = d < depth;
        if (m == 0) & !inner {
            return true;
        }
        if 4 <= depth {
            return false;
        }
        m = model_writer::left(inner, m);
    }
    true
}

/// Whether no particle of a model is deeper than 4 after an edit at a place.
pub fn is_within(part: &[u8], edit: Edit, place: Found) -> bool
    requires { (depths_within (particles_of part.now) ≡ true) × (place.particle < 4611686018427387904) }
    ensures { result ≡ depths_within (part_after (edit_of edit) place.holder place.particle (particles_of part.now)) }
{
    let depth = place.holder.depth;
    match edit {
        Edit::Insert(_, _) => depth <= 4,
        Edit::Remove => true,
        Edit::Quantify(_) => true,
        Edit::Convert(_, m) => (depth <= 4)
            & moved_within(layout::particles_from(part, place.particle), depth, m),
        Edit::Flatten => true,
    }
}
