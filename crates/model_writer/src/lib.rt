//! The particles of a form after an edit of one model: changes 3 to 8.
#![tactic(auto)]

ghost use Rattle.std.specs.Prelude.{◌≡◌, ◌+◌, ◌*◌, ◌%◌, ◌<◌, length, take, drop};
ghost use Rattle.rules.specs.Layout.{particle_size, each, particle_bytes};
ghost use Rattle.rules.specs.Edit.{insert, quantify, convert};
ghost use Rattle.rules.specs.Decode.{read_particle};
ghost use Rattle.codec.specs.Laid.{Laid};
ghost use Rattle.model.specs.Members.{particles_of};
ghost use Rattle.model_writer.specs.Writing.{edit_of, shift, passing, Fitting, Tail, Head, Part, particle_range, EditPart};
ghost use Rattle.model_writer.specs.Spliced.{spliced};
ghost use Rattle.model_writer.specs.PartAfter.{redeep, recount, moved, tail_after, count_after, recounted, part_after};

use layout::PARTICLE_SIZE;
use rules::{GroupKind, Quantifier};

/// An edit of a model at a place, elements by their definitions' indices.
#[derive(Clone, Copy)]
pub enum Edit {
    Insert(Quantifier, usize),
    Remove,
    Quantify(Quantifier),
    Convert(GroupKind, usize),
    Flatten,
}

// ---- particles

// The depth of a particle one deeper, or else one less deep: a truth and no closure, as the definition `shift` has it.
fn shifted(depth: u8, deeper: bool) -> u8
    requires { shift deeper depth < 256 }
    ensures { result ≡ shift deeper depth }
{
    if deeper {
        depth + 1
    } else {
        depth.saturating_sub(1)
    }
}

/// How many members are left to pass after a particle; inner: it is no member itself.
pub fn left(inner: bool, n: usize) -> usize
    ensures { result ≡ passing inner n }
{
    if inner { n } else { n.saturating_sub(1) }
}

// The first particle of t, with another depth.
fn put_shifted(t: &[u8], deeper: bool, out: &mut [u8], at: usize) -> usize
    requires { (shift deeper (read_particle t.now).depth < 256) × (at < 9223372036854775808) }
    ensures { Laid (particle_bytes (redeep (shift deeper) (read_particle t.now))) out.old at result out.new }
{
    let depth = shifted(layout::particle_depth(t), deeper);
    layout_writer::put_particle(
        layout::particle_sort(t),
        layout::particle_quantifier(t),
        layout::particle_index(t),
        depth,
        out,
        at,
    )
}

// The particles of the first n members of depth d and the deeper ones
// before them go one deeper or less deep, the others stay.
fn put_moved(s: &[u8], d: usize, n: usize, deeper: bool, out: &mut [u8], start: usize) -> usize
    requires { (length s.now % particle_size ≡ 0) × (start + length s.now < 9223372036854775808) × Fitting (moved (shift deeper) d n (particles_of s.now)) }
    ensures { Laid (each particle_bytes (moved (shift deeper) d n (particles_of s.now))) out.old start result out.new }
{
    let mut m = n;
    let mut at = start;
    for particle in s.chunks_exact(PARTICLE_SIZE) {
        let inner = d < layout::particle_depth(particle) as usize;
        if (m == 0) & !inner {
            return codec::put(&s[at - start..], out, at);
        }
        at = put_shifted(particle, deeper, out, at);
        m = left(inner, m);
    }
    at
}

// ---- from the place on: the particles ys become those after the edit, where d is the depth there
// Each edit has a function of its own, and these take what the place leaves alike.

fn put_inserted(
    ys: &[u8],
    q: Quantifier,
    index: usize,
    d: usize,
    out: &mut [u8],
    at: usize,
) -> usize
    requires { Tail (insert q index) d ys.now at }
    ensures { Laid (each particle_bytes (tail_after (insert q index) d (particles_of ys.now))) out.old at result out.new }
{
    let next = layout_writer::put_new_particle(None, q, index as u8, d as u8, out, at);
    codec::put(ys, out, next)
}

fn put_requantified(ys: &[u8], q: Quantifier, d: usize, out: &mut [u8], at: usize) -> usize
    requires { Tail (quantify q) d ys.now at }
    ensures { Laid (each particle_bytes (tail_after (quantify q) d (particles_of ys.now))) out.old at result out.new }
{
    if ys.len() < PARTICLE_SIZE {
        return at;
    }
    let code = u8::from(q);
    let next = layout_writer::put_particle(
        layout::particle_sort(ys),
        code,
        layout::particle_index(ys),
        layout::particle_depth(ys),
        out,
        at,
    );
    codec::put(layout::particles_from(ys, 1), out, next)
}

fn put_grouped(ys: &[u8], kind: GroupKind, n: usize, d: usize, out: &mut [u8], at: usize) -> usize
    requires { Tail (convert kind n) d ys.now at }
    ensures { Laid (each particle_bytes (tail_after (convert kind n) d (particles_of ys.now))) out.old at result out.new }
{
    let next = layout_writer::put_new_particle(
        Some(kind),
        Quantifier::None,
        n as u8,
        d as u8,
        out,
        at,
    );
    put_moved(ys, d, n, true, out, next)
}

fn put_tail(ys: &[u8], edit: Edit, d: usize, out: &mut [u8], at: usize) -> usize
    requires { Tail (edit_of edit) d ys.now at }
    ensures { Laid (each particle_bytes (tail_after (edit_of edit) d (particles_of ys.now))) out.old at result out.new }
{
    match edit {
        Edit::Insert(q, index) => put_inserted(ys, q, index, d, out, at),
        Edit::Remove => codec::put(layout::particles_from(ys, 1), out, at),
        Edit::Quantify(q) => put_requantified(ys, q, d, out, at),
        Edit::Convert(kind, n) => put_grouped(ys, kind, n, d, out, at),
        Edit::Flatten => put_moved(layout::particles_from(ys, 1), d, 0, false, out, at),
    }
}

// ---- before the place

// How many members the list around the place has after the edit, of n before; ys: the particles from the place on.
fn count_after(ys: &[u8], edit: Edit, n: usize) -> usize
    requires { (length ys.now % particle_size ≡ 0) × (n < 256) }
    ensures { result ≡ count_after (edit_of edit) (particles_of ys.now) n }
{
    match edit {
        Edit::Insert(_, _) => n + 1,
        Edit::Remove => n.saturating_sub(1),
        Edit::Quantify(_) => n,
        Edit::Convert(_, m) => (n + 1).saturating_sub(m),
        Edit::Flatten => (n + layout::particle_index(ys) as usize).saturating_sub(1),
    }
}

// The particle x of a group, with its member count after the edit.
fn put_recounted(x: &[u8], ys: &[u8], edit: Edit, out: &mut [u8], at: usize) -> usize
    requires { (length ys.now % particle_size ≡ 0) × (count_after (edit_of edit) (particles_of ys.now) (read_particle x.now).row.index < 256) × (at < 4611686018427387904) }
    ensures { Laid (particle_bytes (recount (count_after (edit_of edit) (particles_of ys.now)) (read_particle x.now))) out.old at result out.new }
{
    let count = count_after(ys, edit, layout::particle_index(x) as usize);
    layout_writer::put_particle(
        layout::particle_sort(x),
        layout::particle_quantifier(x),
        count as u8,
        layout::particle_depth(x),
        out,
        at,
    )
}

// The first n particles, where the members of the list start at particle `first`.
fn put_head(part: &[u8], edit: Edit, first: usize, n: usize, out: &mut [u8], at: usize) -> usize
    requires { Head (edit_of edit) first n part.now at }
    ensures { Laid
        (each particle_bytes (recounted (count_after (edit_of edit) (drop n (particles_of part.now))) first (take n (particles_of part.now))))
        out.old at result out.new }
{
    if first == 0 {
        return codec::put(layout::window(part, 0, PARTICLE_SIZE * n), out, at);
    }
    let held = PARTICLE_SIZE * (first - 1);
    let next = codec::put(layout::window(part, 0, held), out, at);
    let group = layout::window(part, held, PARTICLE_SIZE);
    let inner = put_recounted(group, layout::particles_from(part, n), edit, out, next);
    codec::put(
        layout::window(
            part,
            held + PARTICLE_SIZE,
            PARTICLE_SIZE * n - PARTICLE_SIZE * first,
        ),
        out,
        inner,
    )
}

// ---- the whole part

/// Writes the particles of a model after an edit at particle n, in the list `holder`, from those before it.
pub fn put_part(
    part: &[u8],
    edit: Edit,
    holder: model::place::Holder,
    n: usize,
    out: &mut [u8],
    at: usize,
) -> usize
    requires { Part (edit_of edit) holder n part.now × (at + 2 * length part.now < 4611686018427387904) }
    ensures { Laid (each particle_bytes (part_after (edit_of edit) holder n (particles_of part.now))) out.old at result out.new }
{
    let next = put_head(part, edit, holder.start, n, out, at);
    put_tail(
        layout::particles_from(part, n),
        edit,
        holder.depth,
        out,
        next,
    )
}

/// Writes all particles of a form, those of one definition (k of them,
/// from number `first` on) after an edit of its model.
pub fn put_particles(
    parts: &[u8],
    first: usize,
    k: usize,
    edit: Edit,
    holder: model::place::Holder,
    n: usize,
    out: &mut [u8],
    at: usize,
) -> usize
    requires { EditPart (edit_of edit) holder n first k parts.now × (at + particle_size * length parts.now < 2305843009213693952) }
    ensures { Laid
        (each particle_bytes
        (spliced first k (part_after (edit_of edit) holder n (particles_of (particle_range first k parts.now))) (particles_of parts.now)))
        out.old at result out.new }
{
    let next = codec::put(layout::window(parts, 0, PARTICLE_SIZE * first), out, at);
    let own = layout::window(parts, PARTICLE_SIZE * first, PARTICLE_SIZE * k);
    let end = put_part(own, edit, holder, n, out, next);
    codec::put(layout::particles_from(parts, first + k), out, end)
}
