//! The plans of changes 3 and 4, which insert and remove an element of a model.
#![tactic(auto)]

ghost use Rattle.std.specs.Prelude.{◌≡◌, not, ◌&&◌, ◌*◌, ◌≤◌, drop};
ghost use Rattle.rules.specs.Model.{skips};
ghost use Rattle.rules.specs.Layout.{particle_size};
ghost use Rattle.rules.specs.Decode.{quantifier_of, read_particle};
ghost use Rattle.plans.specs.ModelCalls.{insert_element_plan, remove_element_plan};
ghost use Rattle.place_marks.specs.Marking.{marks_at};

use row_walk::{Plan, Which};
use rules::Quantifier;

/// 3: the plan for the gap before particle p of the owner's part, which is on the spine or not.
pub fn inserting_plan(
    part: &[u8],
    owner: usize,
    p: usize,
    spine: bool,
    definition: usize,
    quantifier: u32,
) -> Plan
    requires { (p ≤ 256) × (quantifier ≤ 3) }
    ensures { result ≡ insert_element_plan owner (marks_at 0 p part.now) definition (not (skips (quantifier_of quantifier)) && spine) }
{
    let needs = !model::skips(Quantifier::from(quantifier as u8)) & spine;
    plans::insert_element_plan(owner, place_marks::marks(part, p, 0), definition, needs)
}

/// 4: the plan for the element at particle p of the owner's part.
pub fn removing_plan(part: &[u8], owner: usize, p: usize) -> Plan
    requires { p ≤ 256 }
    ensures { result ≡ remove_element_plan owner (read_particle (drop (particle_size * p) part.now)).row.index }
{
    let index = layout::particle_index(layout::particles_from(part, p)) as usize;
    plans::taking_plan(Which::Elements(owner), Which::Elements(index))
}
