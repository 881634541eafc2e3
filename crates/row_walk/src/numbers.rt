//! The test of a row that stays as it is, by a plan that comes as numbers with its marks beside it. So it is told of
//! every plan, also of one that no `Plan` is: with serials past 32 bits, or with marks of another length than 64.
ghost use Rattle.std.specs.Prelude.{◌≡◌, []};
ghost use Rattle.row_walk.specs.Walk.{matches, is_later};
ghost use Rattle.row_walk.specs.Lent.{which_in, later_in, plan_in, every_if, later_if};
ghost use Rattle.row_walk.specs.Step.{valueless, is_plain, Moves, Fair};

use crate::{Head, Later, Open, Plan, Shift, Which};
use filling::Filling;
use rules::RowSort;

// Whether a row is one of those of a variant with a number.
fn matches_number(variant: usize, number: usize, h: Head) -> bool
    ensures { result ≡ matches (which_in variant number) (valueless h).row }
{
    match variant {
        0 => false,
        1 => true,
        2 => false,
        3 => h.is(RowSort::Element) & (h.index == number),
        4 => h.is(RowSort::Attribute) & (h.index == number),
        _ => h.is(RowSort::Element) & (h.serial == number),
    }
}

// Whether a filling comes before a row.
fn is_later_number(variant: usize, number: usize, marks: &[u8], h: Head) -> bool
    ensures { result ≡ is_later marks.now (later_in variant number) (valueless h).row }
{
    match variant {
        0 => false,
        1 => h.serial == number,
        2 => !(h.is(RowSort::Attribute) & (h.index < number)),
        _ => h.is(RowSort::Element) & !(codec::byte(marks, h.index) == 1),
    }
}

fn every_if(there: bool) -> Which
    ensures { result ≡ every_if there }
{
    if there {
        return Which::Everything;
    }
    Which::Nothing
}

fn later_if(there: bool) -> Later
    ensures { result ≡ later_if there }
{
    if there {
        return Later::Past(0);
    }
    Later::Never
}

/// Whether a row stays as it is, and nothing comes before it, by a plan as numbers: of `above`, `takes` and `later` the
/// variant and what it holds (0 and 1, 2 and 3, 4 and 5), `fills`, `keeps` and `spares` (6 to 8, 1 if it is so), `set`
/// (9), the fields of `definitions` and of `attributes` (10 to 12, 13 to 15), the filling (16 to 18). Of any marks.
// `is_plain` of a plan that says of this one row what the numbers say of it.
pub fn is_plain_by_numbers(p: &[usize; 19], marks: &[u8], o: Open, h: Head) -> bool
    requires { Moves (plan_in p.now []).definitions × Moves (plan_in p.now []).attributes × Fair h }
    ensures { result ≡ is_plain (plan_in p.now marks.now) o (valueless h) }
{
    let plan = Plan {
        above: every_if(p[0] == 1),
        takes: every_if(matches_number(p[2], p[3], h)),
        fills: false,
        later: later_if(is_later_number(p[4], p[5], marks, h)),
        filling: Filling::Nothing,
        marks: [0; 64],
        keeps: p[7] == 1,
        spares: false,
        set: None,
        definitions: Shift {
            from: p[10],
            more: p[11],
            less: p[12],
        },
        attributes: Shift {
            from: p[13],
            more: p[14],
            less: p[15],
        },
    };
    !(h.serial == p[9]) & crate::is_plain(&plan, o, h)
}
