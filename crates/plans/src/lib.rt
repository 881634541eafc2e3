//! The plans by indices of the changes, and that the walk over the rows with a plan does what the change of the rules
//! does to the documents.
#![tactic(auto)]

ghost use Rattle.std.specs.Prelude.{◌≡◌};
ghost use Rattle.rules.specs.Layout.{sort_code};
ghost use Rattle.plans.specs.CallPlans.{filling_plan, taking_plan, setting_plan, set_attribute_plan};
ghost use Rattle.plans.specs.AttributeCalls.{add_attribute_plan, destroy_attribute_plan};
ghost use Rattle.plans.specs.ModelCalls.{cut_takes, gain_filling, insert_element_plan, requantify_plan};

use filling::Filling;
use row_walk::{Later, Plan, Shift, Which};
use rules::AttributeSort;

const UNMOVED: Shift = Shift {
    from: 0,
    more: 0,
    less: 0,
};

// A plan that does nothing.
const NOTHING: Plan = Plan {
    above: Which::Nothing,
    takes: Which::Nothing,
    fills: false,
    later: Later::Never,
    filling: Filling::Nothing,
    marks: [0; 64],
    keeps: false,
    spares: false,
    set: None,
    definitions: UNMOVED,
    attributes: UNMOVED,
};

/// Rows come.
pub fn filling_plan(above: Which, later: Later, filling: Filling) -> Plan
    ensures { result ≡ filling_plan above later filling }
{
    Plan {
        above,
        fills: true,
        later,
        filling,
        ..NOTHING
    }
}

/// Rows go.
pub fn taking_plan(above: Which, takes: Which) -> Plan
    ensures { result ≡ taking_plan above takes }
{
    Plan {
        above,
        takes,
        ..NOTHING
    }
}

/// The row with serial `set` gets a value.
pub fn setting_plan(set: u32) -> Plan
    ensures { result ≡ setting_plan set }
{
    Plan {
        set: Some(set),
        ..NOTHING
    }
}

// ---- attributes

/// 9: an attribute of definition `owner` at `at`, of a sort, in a store of a version.
pub fn add_attribute_plan(version: usize, owner: usize, at: usize, sort: AttributeSort) -> Plan
    ensures { result ≡ add_attribute_plan version owner at (sort_code sort) }
{
    Plan {
        above: Which::Elements(owner),
        fills: records::must_be_present(version, sort),
        later: Later::Past(at),
        filling: Filling::Attribute(at),
        attributes: Shift {
            from: at,
            more: 1,
            less: 0,
        },
        ..NOTHING
    }
}

/// 10: an attribute of definition `owner`.
pub fn destroy_attribute_plan(owner: usize, attribute: usize) -> Plan
    ensures { result ≡ destroy_attribute_plan owner attribute }
{
    Plan {
        above: Which::Elements(owner),
        takes: Which::Attributes(attribute),
        attributes: Shift {
            from: attribute,
            more: 0,
            less: 1,
        },
        ..NOTHING
    }
}

/// 14: the attribute's row with serial `row` gets the value; where there is none (0), one is made.
pub fn set_attribute_plan(element: u32, attribute: usize, row: u32) -> Plan
    ensures { result ≡ set_attribute_plan element attribute row }
{
    if row == 0 {
        return filling_plan(
            Which::Serial(element),
            Later::Past(attribute),
            Filling::Attribute(attribute),
        );
    }
    setting_plan(row)
}

// ---- models

/// 3: below instances of definition `owner`, after the rows of marked definitions, a filling of a definition.
pub fn insert_element_plan(owner: usize, marks: [u8; 64], definition: usize, needs: bool) -> Plan
    ensures { result ≡ insert_element_plan owner marks definition needs }
{
    Plan {
        above: Which::Elements(owner),
        fills: needs,
        later: Later::Unmarked,
        filling: Filling::Definition(definition),
        marks,
        ..NOTHING
    }
}

fn cut_takes(cut: bool, definition: usize) -> Which
    ensures { result ≡ cut_takes cut definition }
{
    if cut {
        Which::Elements(definition)
    } else {
        Which::Nothing
    }
}

fn gain_filling(gain: bool, filling: Filling) -> Filling
    ensures { result ≡ gain_filling gain filling }
{
    if gain { filling } else { Filling::Nothing }
}

/// 5 and 8: a cut takes the elements of a definition but the first, a gain brings a filling where none stands.
// `cut` and `gain` are answers of tests, and what they stand beside is known where they are false: as Options both would
// be made by `then_some`, to be taken apart here.
pub fn requantify_plan(
    owner: usize,
    marks: [u8; 64],
    cut: bool,
    definition: usize,
    gain: bool,
    filling: Filling,
) -> Plan
    ensures { result ≡ requantify_plan owner marks cut definition gain filling }
{
    Plan {
        above: Which::Elements(owner),
        takes: cut_takes(cut, definition),
        fills: cut | gain,
        later: Later::Unmarked,
        filling: gain_filling(gain, filling),
        marks,
        keeps: cut,
        spares: true,
        ..NOTHING
    }
}
