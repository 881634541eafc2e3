//! Stores that programs try calls on.
#![tactic(auto)]

ghost use Rattle.std.specs.Prelude.{◌<◌};

/// The fresh store, 40 bytes: version 1, next serial 1, and four empty bodies.
pub const FRESH: [u8; 40] = [
    1, 0, 0, 0, 1, 0, 0, 0, 40, 0, 0, 0, 0, 0, 0, 0, 40, 0, 0, 0, 0, 0, 0, 0, 40, 0, 0, 0, 0, 0, 0,
    0, 40, 0, 0, 0, 0, 0, 0, 0,
];

/// The store that clubform leaves.
pub const CLUB: [u8; 508] = [
    1, 0, 0, 0, 9, 0, 0, 0, 40, 0, 0, 0, 5, 0, 0, 0, 140, 0, 0, 0, 4, 0, 0, 0, 156, 0, 0, 0, 0, 0,
    0, 0, 156, 0, 0, 0, 8, 0, 0, 0, 4, 114, 97, 99, 101, 0, 0, 0, 0, 0, 0, 0, 0, 0, 0, 0, 0, 2, 1,
    0, 8, 102, 105, 110, 105, 115, 104, 101, 114, 0, 0, 0, 0, 0, 0, 0, 0, 2, 3, 0, 3, 98, 105, 98,
    0, 0, 0, 0, 0, 0, 0, 0, 0, 0, 0, 0, 0, 1, 0, 0, 4, 116, 105, 109, 101, 0, 0, 0, 0, 0, 0, 0, 0,
    0, 0, 0, 0, 1, 0, 0, 4, 99, 108, 117, 98, 0, 0, 0, 0, 0, 0, 0, 0, 0, 0, 0, 0, 1, 0, 0, 0, 2, 1,
    0, 0, 0, 2, 0, 0, 0, 4, 0, 0, 1, 3, 0, 1, 0, 0, 0, 1, 0, 0, 0, 0, 0, 0, 0, 0, 0, 0, 0, 0, 0, 0,
    0, 0, 0, 0, 0, 0, 0, 0, 0, 0, 0, 0, 0, 0, 0, 0, 0, 0, 0, 0, 0, 0, 0, 0, 0, 1, 1, 1, 0, 2, 0, 0,
    0, 0, 0, 0, 0, 0, 0, 0, 0, 0, 0, 0, 0, 0, 0, 0, 0, 0, 0, 0, 0, 0, 0, 0, 0, 0, 0, 0, 0, 0, 0, 0,
    0, 0, 0, 0, 0, 1, 2, 2, 0, 3, 0, 0, 0, 0, 0, 0, 0, 0, 0, 0, 0, 0, 0, 0, 0, 0, 0, 0, 0, 0, 0, 0,
    0, 0, 0, 0, 0, 0, 0, 0, 0, 0, 0, 0, 0, 0, 0, 0, 0, 3, 3, 0, 0, 4, 0, 0, 0, 1, 0, 55, 0, 0, 0,
    0, 0, 0, 0, 0, 0, 0, 0, 0, 0, 0, 0, 0, 0, 0, 0, 0, 0, 0, 0, 0, 0, 0, 0, 0, 0, 0, 0, 0, 0, 1, 2,
    4, 0, 7, 0, 0, 0, 0, 0, 0, 0, 0, 0, 0, 0, 0, 0, 0, 0, 0, 0, 0, 0, 0, 0, 0, 0, 0, 0, 0, 0, 0, 0,
    0, 0, 0, 0, 0, 0, 0, 0, 0, 0, 3, 3, 0, 0, 8, 0, 0, 0, 4, 0, 110, 111, 110, 101, 0, 0, 0, 0, 0,
    0, 0, 0, 0, 0, 0, 0, 0, 0, 0, 0, 0, 0, 0, 0, 0, 0, 0, 0, 0, 0, 0, 0, 0, 0, 1, 2, 3, 0, 5, 0, 0,
    0, 0, 0, 0, 0, 0, 0, 0, 0, 0, 0, 0, 0, 0, 0, 0, 0, 0, 0, 0, 0, 0, 0, 0, 0, 0, 0, 0, 0, 0, 0, 0,
    0, 0, 0, 0, 0, 3, 3, 0, 0, 6, 0, 0, 0, 5, 0, 49, 57, 58, 48, 52, 0, 0, 0, 0, 0, 0, 0, 0, 0, 0,
    0, 0, 0, 0, 0, 0, 0, 0, 0, 0, 0, 0, 0, 0, 0, 0, 0, 0, 0,
];

/// r ((a|b)+,c?) with a REQUIRED and a FIXED attribute, c with an IMPLIED one; one document that has them all.
pub const LEGS: [u8; 644] = [
    1, 0, 0, 0, 9, 0, 0, 0, 40, 0, 0, 0, 4, 0, 0, 0, 120, 0, 0, 0, 4, 0, 0, 0, 136, 0, 0, 0, 3, 0,
    0, 0, 36, 1, 0, 0, 8, 0, 0, 0, 1, 114, 0, 0, 0, 0, 0, 0, 0, 0, 0, 0, 0, 0, 0, 0, 0, 2, 4, 0, 1,
    97, 0, 0, 0, 0, 0, 0, 0, 0, 0, 0, 0, 0, 0, 0, 0, 0, 0, 0, 1, 98, 0, 0, 0, 0, 0, 0, 0, 0, 0, 0,
    0, 0, 0, 0, 0, 0, 0, 0, 1, 99, 0, 0, 0, 0, 0, 0, 0, 0, 0, 0, 0, 0, 0, 0, 0, 1, 0, 0, 2, 3, 2,
    0, 0, 0, 1, 1, 0, 0, 2, 1, 0, 1, 3, 0, 0, 1, 112, 0, 0, 0, 0, 0, 0, 0, 0, 0, 0, 0, 0, 0, 0, 0,
    1, 1, 120, 0, 0, 0, 0, 0, 0, 0, 0, 0, 0, 0, 0, 0, 0, 0, 0, 0, 0, 0, 0, 0, 0, 0, 0, 0, 0, 0, 0,
    0, 0, 0, 0, 1, 113, 0, 0, 0, 0, 0, 0, 0, 0, 0, 0, 0, 0, 0, 0, 0, 2, 2, 101, 110, 0, 0, 0, 0, 0,
    0, 0, 0, 0, 0, 0, 0, 0, 0, 0, 0, 0, 0, 0, 0, 0, 0, 0, 0, 0, 0, 0, 0, 0, 0, 3, 1, 115, 0, 0, 0,
    0, 0, 0, 0, 0, 0, 0, 0, 0, 0, 0, 0, 0, 0, 0, 0, 0, 0, 0, 0, 0, 0, 0, 0, 0, 0, 0, 0, 0, 0, 0, 0,
    0, 0, 0, 0, 0, 0, 0, 0, 0, 0, 0, 0, 0, 0, 1, 0, 0, 0, 1, 0, 0, 0, 0, 0, 0, 0, 0, 0, 0, 0, 0, 0,
    0, 0, 0, 0, 0, 0, 0, 0, 0, 0, 0, 0, 0, 0, 0, 0, 0, 0, 0, 0, 0, 0, 0, 0, 0, 0, 2, 1, 0, 0, 2, 0,
    0, 0, 1, 0, 120, 0, 0, 0, 0, 0, 0, 0, 0, 0, 0, 0, 0, 0, 0, 0, 0, 0, 0, 0, 0, 0, 0, 0, 0, 0, 0,
    0, 0, 0, 0, 0, 0, 0, 2, 1, 1, 0, 3, 0, 0, 0, 2, 0, 101, 110, 0, 0, 0, 0, 0, 0, 0, 0, 0, 0, 0,
    0, 0, 0, 0, 0, 0, 0, 0, 0, 0, 0, 0, 0, 0, 0, 0, 0, 0, 0, 0, 0, 1, 1, 1, 0, 4, 0, 0, 0, 0, 0, 0,
    0, 0, 0, 0, 0, 0, 0, 0, 0, 0, 0, 0, 0, 0, 0, 0, 0, 0, 0, 0, 0, 0, 0, 0, 0, 0, 0, 0, 0, 0, 0, 0,
    0, 1, 1, 2, 0, 5, 0, 0, 0, 0, 0, 0, 0, 0, 0, 0, 0, 0, 0, 0, 0, 0, 0, 0, 0, 0, 0, 0, 0, 0, 0, 0,
    0, 0, 0, 0, 0, 0, 0, 0, 0, 0, 0, 0, 0, 1, 1, 3, 0, 6, 0, 0, 0, 0, 0, 0, 0, 0, 0, 0, 0, 0, 0, 0,
    0, 0, 0, 0, 0, 0, 0, 0, 0, 0, 0, 0, 0, 0, 0, 0, 0, 0, 0, 0, 0, 0, 0, 0, 0, 2, 2, 2, 0, 7, 0, 0,
    0, 1, 0, 118, 0, 0, 0, 0, 0, 0, 0, 0, 0, 0, 0, 0, 0, 0, 0, 0, 0, 0, 0, 0, 0, 0, 0, 0, 0, 0, 0,
    0, 0, 0, 0, 0, 0, 3, 2, 0, 0, 8, 0, 0, 0, 1, 0, 116, 0, 0, 0, 0, 0, 0, 0, 0, 0, 0, 0, 0, 0, 0,
    0, 0, 0, 0, 0, 0, 0, 0, 0, 0, 0, 0, 0, 0, 0, 0, 0, 0, 0,
];

// ---- the deepest store
// Laid byte by byte: it does not lean on the writers of the store.

/// The bytes of the deepest store: 64 definitions in each other, and one document of 64 elements in each other. All but
/// the last are COMPLEX, with the next one as their only member; the last is EMPTY.
pub const DEEPEST: usize = 4388;

// Where the particles and the rows start. There are no attributes between them.
const PARTICLES: usize = 1320;

const ROWS: usize = 1572;

// Written byte by byte, and not by the writers of the library, whose stores are what programs try with it. Each part is
// lent the array, whose length no call has to require.

// Version 1, next serial 65, and the offsets and counts: 64 definitions, 63 particles, no attribute, 64 rows.
fn lay_header(store: &mut [u8; DEEPEST]) {
    store[0] = 1;
    store[4] = 65;
    store[8] = 40;
    store[12] = 64;
    store[16] = 40;
    store[17] = 5;
    store[20] = 63;
    store[24] = 36;
    store[25] = 6;
    store[32] = 36;
    store[33] = 6;
    store[36] = 64;
}

// The i-th definition, named by two letters: `aa`, `ab`, and so on.
fn lay_definition(store: &mut [u8; DEEPEST], i: usize)
    requires { i < 64 }
{
    let at = 40 + 20 * i;
    store[at] = 2;
    store[at + 1] = 97 + (i / 26) as u8;
    store[at + 2] = 97 + (i % 26) as u8;
    if i < 63 {
        store[at + 17] = 2;
        store[at + 18] = 1;
    }
}

// The only particle of the i-th model: the next definition, with the quantifier NONE.
fn lay_particle(store: &mut [u8; DEEPEST], i: usize)
    requires { i < 63 }
{
    store[PARTICLES + 4 * i + 2] = i as u8 + 1;
}

// The i-th element, in i others.
fn lay_row(store: &mut [u8; DEEPEST], i: usize)
    requires { i < 64 }
{
    let at = ROWS + 44 * i;
    store[at] = 1;
    store[at + 1] = i as u8;
    store[at + 2] = i as u8;
    store[at + 4] = i as u8 + 1;
}

fn lay_bodies(store: &mut [u8; DEEPEST]) {
    for i in 0..64 {
        lay_definition(store, i);
        if i < 63 {
            lay_particle(store, i);
        }
        lay_row(store, i);
    }
}

/// 64 elements in each other.
pub fn deepest() -> [u8; DEEPEST] {
    let mut store = [0; DEEPEST];
    lay_header(&mut store);
    lay_bodies(&mut store);
    store
}
