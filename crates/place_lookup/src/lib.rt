//! What a place of a model leads to. Positions are counted in particles.
#![tactic(auto)]

ghost use Rattle.std.specs.Prelude.{◌≡◌, ◌+◌, ◌*◌, ◌<◌, ◌≤◌, ◌^◌, length, Some};
ghost use Rattle.rules.specs.Layout.{particle_size};
ghost use Rattle.rules.specs.Place.{plain};
ghost use Rattle.model.specs.Members.{particles_of};
ghost use Rattle.model.specs.declared.place.Reached.TheVariants.{Member};
ghost use Rattle.model.specs.Places.{leads_to, onward, ended, reach, span_of, at_member, at_gap, last_of, entered_at, entered_of, spot_of, place_in};

use layout::PARTICLE_SIZE;
use model::place::{Entered, Found, Holder, Reached};
use model::{What, read_particle};
use rules::{GroupKind, Quantifier};

// With n members to pass at a list's end, past p particles.
fn ended(n: usize, p: usize) -> Reached
    ensures { result ≡ onward p (ended n) }
{
    if n == 0 {
        Reached::End(p)
    } else {
        Reached::Few
    }
}

// Past n members of depth d.
fn reach(s: &[u8], d: usize, n: usize) -> Reached
    ensures { result ≡ reach d n (particles_of s.now) }
{
    let mut p = 0;
    let mut m = n;
    for particle in s.chunks_exact(PARTICLE_SIZE) {
        let depth = layout::particle_depth(particle) as usize;
        if depth < d {
            return ended(m, p);
        }
        if depth == d {
            if m == 0 {
                return Reached::Member(p);
            }
            m -= 1;
        }
        p += 1;
    }
    ended(m, p)
}

/// How many particles deeper than d s begins with.
pub fn span(s: &[u8], d: usize) -> usize
    ensures { result ≡ span_of d (particles_of s.now) }
{
    s.chunks_exact(PARTICLE_SIZE)
        .take_while(|particle| d < layout::particle_depth(particle) as usize)
        .count()
}

fn plain(q: Quantifier, kind: GroupKind) -> bool
    ensures { result ≡ plain q kind }
{
    q == Quantifier::None && kind == GroupKind::Sequence
}

// Particle p of the part of the list h.
fn particle_of(h: Holder, p: usize) -> Found
    requires { h.start + p < 2 ^ 64 }
    ensures { leads_to h (h.start + p) ≡ Some result }
{
    Found {
        holder: h,
        particle: h.start + p,
    }
}

// Where the member after the first n stands.
fn member_after(s: &[u8], n: usize, h: Holder) -> Option<Found>
    requires { h.start + length s.now < 2 ^ 64 }
    ensures { result ≡ at_member h (reach h.depth n (particles_of s.now)) }
{
    match reach(s, h.depth, n) {
        Reached::Member(p) => Some(particle_of(h, p)),
        Reached::End(_) | Reached::Few => None,
    }
}

// Where the first n members end, each with what is in it.
fn gap_after(s: &[u8], n: usize, h: Holder) -> Option<Found>
    requires { h.start + length s.now < 2 ^ 64 }
    ensures { result ≡ at_gap h (reach h.depth n (particles_of s.now)) }
{
    match reach(s, h.depth, n) {
        Reached::Member(p) | Reached::End(p) => Some(particle_of(h, p)),
        Reached::Few => None,
    }
}

// By a flag: this step as a closure would go through each call of `find_in`, which only hands it on, and its clause
// would be that of both functions at once.
fn last_of(s: &[u8], n: usize, insert: bool, h: Holder) -> Option<Found>
    requires { h.start + length s.now < 2 ^ 64 }
    ensures { result ≡ last_of insert n h (particles_of s.now) }
{
    if insert {
        return gap_after(s, n, h);
    }
    if n == 0 {
        return None;
    }
    member_after(s, n - 1, h)
}

// The list of the group at particle p, and its part.
fn enter_at(s: &[u8], p: usize, h: Holder) -> Option<Entered>
    requires { (particle_size * p + particle_size ≤ length s.now) × (h.start + length s.now < 2 ^ 64) × (h.depth ≤ 5) }
    ensures { result ≡ entered_at h (particles_of s.now) (Member p) }
{
    let x = read_particle(s, PARTICLE_SIZE * p);
    let What::Group(kind, _) = x.what else {
        return None;
    };
    let from = p + 1;
    let size = span(&s[PARTICLE_SIZE * from..], h.depth);
    let list = Holder {
        start: h.start + from,
        depth: h.depth + 1,
        kind,
        spine: h.spine & plain(x.quantifier, kind),
    };
    Some(Entered { list, from, size })
}

fn enter(s: &[u8], n: usize, h: Holder) -> Option<Entered>
    requires { (h.start + length s.now < 2 ^ 64) × (h.depth ≤ 5) }
    ensures { result ≡ entered_of n h (particles_of s.now) }
{
    if n == 0 {
        return None;
    }
    match reach(s, h.depth, n - 1) {
        Reached::Member(p) => enter_at(s, p, h),
        Reached::End(_) | Reached::Few => None,
    }
}

// What a place leads to in the list h, whose part of the particle body s is.
fn find_in(s: &[u8], place: &[u32], insert: bool, h: Holder) -> Option<Found>
    requires { (h.start + length s.now < 2 ^ 64) × (h.depth + length place.now ≤ 5) }
    ensures { result ≡ spot_of insert place.now h (particles_of s.now) }
{
    match place {
        [] => None,
        [n] => last_of(s, *n as usize, insert, h),
        [n, rest @ ..] => {
            let group = enter(s, *n as usize, h)?;
            let part = codec::part(s, PARTICLE_SIZE * group.from, PARTICLE_SIZE * group.size);
            find_in(part, rest, insert, group.list)
        }
    }
}

/// What a place leads to in a model: a member, or with `insert` the gap after it.
pub fn find(particles: &[u8], place: &[u32], insert: bool) -> Option<Found>
    ensures { result ≡ place_in insert place.now particles.now }
{
    if place.len() > 5 {
        return None;
    }
    let top = Holder {
        start: 0,
        depth: 0,
        kind: GroupKind::Sequence,
        spine: true,
    };
    find_in(particles, place, insert, top)
}
