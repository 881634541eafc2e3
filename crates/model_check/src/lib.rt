//! Whether particles are the preorder of a model. Every loop is bounded by a count of particles.
#![tactic(auto)]

ghost use Rattle.std.specs.Prelude.{◌≡◌, ◌+◌, ◌<◌, ◌≤◌, drop};
ghost use Rattle.rules.specs.Bytes.{any};
ghost use Rattle.model_check.specs.ModelTests.{model_fits};
ghost use Rattle.model_check.specs.Particles.{particle_record_at, particles_read, same_element, count_fits, count_beside, particle_stands};

// The sort of a particle that is an element; the others are groups. Sorts and quantifiers are compared as the bytes
// that they are: whether a byte is a code at all is what is tested here, and an enum would have answered that.
const ELEMENT: usize = 0;

// How many particles stand beside one another at depth k, from particle `from` on: the scan ends at a depth below k.
fn members(m: usize, parts: &[u8], from: usize, k: usize) -> usize
    requires { m ≤ 256 }
    ensures { result ≡ count_beside k (drop from (particles_read m parts.now)) }
{
    let mut count: usize = 0;
    for j in from..m {
        let depth = layout::particle_depth_at(parts, j);
        if depth < k {
            return count;
        }
        if depth == k {
            count += 1;
        }
    }
    count
}

// Whether the codes and the index of particle i fit, with `below` particles directly in it.
fn count_fits(n: usize, parts: &[u8], i: usize, below: usize) -> bool
    requires { i < 256 }
    ensures { result ≡ count_fits n (particle_record_at i parts.now).row below }
{
    let sort = layout::particle_sort_at(parts, i);
    let marked = layout::particle_quantifier_at(parts, i) <= 3;
    let index = layout::particle_index_at(parts, i);
    if sort == ELEMENT {
        return marked & ((index < n) & (below == 0));
    }
    marked & ((sort <= 2) & ((index == below) & (below != 0)))
}

// Whether particles i and j are one element.
fn same_element(parts: &[u8], i: usize, j: usize) -> bool
    requires { (i < 256) × (j < 256) }
    ensures { result ≡ same_element (particle_record_at i parts.now) (particle_record_at j parts.now) }
{
    let first = layout::particle_sort_at(parts, i) == ELEMENT;
    let second = layout::particle_sort_at(parts, j) == ELEMENT;
    first & (second & (layout::particle_index_at(parts, i) == layout::particle_index_at(parts, j)))
}

// Whether a later particle is the element of particle i again.
fn element_again(m: usize, parts: &[u8], i: usize) -> bool
    requires { (m ≤ 256) × (i < m) }
    ensures { result ≡ any (same_element (particle_record_at i parts.now)) (drop (i + 1) (particles_read m parts.now)) }
{
    (i + 1..m).any(|j| same_element(parts, i, j))
}

// Whether particle i of a model can stand where depth d is allowed.
fn particle_stands(n: usize, m: usize, parts: &[u8], i: usize, d: usize) -> bool
    requires { (m ≤ 256) × (i < m) }
    ensures { result ≡ particle_stands n d (particle_record_at i parts.now) (drop (i + 1) (particles_read m parts.now)) }
{
    let depth = layout::particle_depth_at(parts, i);
    if 4 < depth {
        return false;
    }
    if d < depth {
        return false;
    }
    let below = members(m, parts, i + 1, depth + 1);
    let fits = count_fits(n, parts, i, below);
    fits & !element_again(m, parts, i)
}

/// Whether m particles are the preorder of a model in a form of n definitions. For each particle those after it are
/// looked at twice: at most 256 * 255 in all.
pub fn model_fits(n: usize, m: usize, parts: &[u8]) -> bool
    requires { m ≤ 256 }
    ensures { result ≡ model_fits n (particles_read m parts.now) }
{
    let mut d: usize = 0;
    for i in 0..m {
        if !particle_stands(n, m, parts, i, d) {
            return false;
        }
        d = layout::particle_depth_at(parts, i) + 1;
    }
    true
}
