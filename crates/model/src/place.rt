//! Places in a model. Positions are counted in particles.
use rules::GroupKind;

/// A list of a model: the particle that its members start at, their depth, its kind, and whether it is a spine list.
#[derive(Clone, Copy, Debug, PartialEq, Eq)]
pub struct Holder {
    pub start: usize,
    pub depth: usize,
    pub kind: GroupKind,
    pub spine: bool,
}

/// What a place leads to: a particle of the list that holds it, or for insertion the list's end.
#[derive(Clone, Copy, Debug, PartialEq, Eq)]
pub struct Found {
    pub holder: Holder,
    pub particle: usize,
}

/// What stands past some members of a list.
#[derive(Clone, Copy, Debug, PartialEq, Eq)]
pub enum Reached {
    Member(usize),
    End(usize),
    Few,
}

/// A group's list, with the first particle of its part and how many there are.
#[derive(Clone, Copy, Debug, PartialEq, Eq)]
pub struct Entered {
    pub list: Holder,
    pub from: usize,
    pub size: usize,
}
