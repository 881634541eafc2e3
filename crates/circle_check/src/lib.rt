//! Circles of definitions: whether a definition reaches itself through models, and the height of each that does not.
#![tactic(auto)]

ghost use Rattle.std.specs.Prelude.{◌≡◌, ◌↔◌, true, ℕ, ◌<◌, ◌≤◌};
ghost use Rattle.rules.specs.Bytes.{all};
ghost use Rattle.circle_check.specs.Members.{elements_of, members_in};
ghost use Rattle.circle_check.specs.Deep.{has_height, first_passes, raised_to, Round, Ranked};
ghost use Rattle.circle_check.specs.Avoiding.{Avoids};

use layout::{MAX_DEFINITIONS, PARTICLE_SIZE};

// Whether a particle is a group, or an element (sort 0) whose index has a height.
fn has_height(particle: &[u8], old: &[u8; MAX_DEFINITIONS]) -> bool
    ensures { result ≡ first_passes (has_height old.now) particle.now }
{
    if layout::particle_sort(particle) != 0 {
        return true;
    }
    let j = layout::particle_index(particle) as usize;
    codec::byte(old, j) != 0
}

// Whether all elements that the particles name have a height.
fn members_have_heights(model: &[u8], old: &[u8; MAX_DEFINITIONS]) -> bool
    ensures { result ≡ all (has_height old.now) (elements_of model.now) }
{
    model
        .chunks_exact(PARTICLE_SIZE)
        .all(|particle| has_height(particle, old))
}

// The height of a definition after round h: the one it had, or h if all members have one.
fn raised(model: &[u8], old: &[u8; MAX_DEFINITIONS], was: u8, h: u8) -> u8
    ensures { result ≡ raised_to h was (all (has_height old.now) (elements_of model.now)) }
{
    if was != 0 {
        return was;
    }
    if members_have_heights(model, old) {
        h
    } else {
        0
    }
}

// Round h: height h for the definitions without one whose members all have one. The particles of a definition stand
// after those of the definitions before it.
fn round(
    n: usize,
    defs: &[u8],
    parts: &[u8],
    old: &[u8; MAX_DEFINITIONS],
    h: u8,
) -> [u8; MAX_DEFINITIONS]
    requires { n ≤ 64 }
    ensures { Round n (members_in defs.now parts.now) h old.now result }
{
    let mut new = [0; MAX_DEFINITIONS];
    let mut start: usize = 0;
    for i in 0..n {
        let count = layout::definition_particles_at(defs, i) as usize;
        let model = layout::particles_part(parts, start, count);
        new[i] = raised(model, old, old[i], h);
        start += count;
    }
    new
}

// Whether each of the first n has a height.
fn whole(n: usize, heights: &[u8; MAX_DEFINITIONS]) -> bool
    requires { n ≤ 64 }
    ensures { (result ≡ true) ↔ ((i : ℕ) → i < n → has_height heights.now i ≡ true) }
{
    for i in 0..n {
        if heights[i] == 0 {
            return false;
        }
    }
    true
}

/// The heights of the n definitions, each more than those of its members, if every chain of members ends. Else, as the
/// error, the heights of those from which every chain ends, and 0 for the others. No height is more than n, so n rounds
/// over all particles settle it.
pub fn heights_of(
    n: usize,
    defs: &[u8],
    parts: &[u8],
) -> Result<[u8; MAX_DEFINITIONS], [u8; MAX_DEFINITIONS]>
    requires { n ≤ 64 }
    ensures { Ranked n (members_in defs.now parts.now) result }
{
    let mut of = [0; MAX_DEFINITIONS];
    for h in 0..n {
        of = round(n, defs, parts, &of, (h + 1) as u8);
    }
    if whole(n, &of) { Ok(of) } else { Err(of) }
}

/// Heights of the n definitions from which no chain leads to the target; 0 for the target, and for one that reaches it.
pub fn heights_avoiding(n: usize, defs: &[u8], parts: &[u8], target: usize) -> [u8; MAX_DEFINITIONS]
    requires { (n ≤ 64) × (target < n) }
    ensures { Avoids n (members_in defs.now parts.now) target result }
{
    let mut of = [0; MAX_DEFINITIONS];
    for rounds in 0..n {
        of = round(n, defs, parts, &of, (rounds + 1) as u8);
        of[target] = 0;
    }
    of
}
