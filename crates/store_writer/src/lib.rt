//! The store that a change leaves, written whole where it keeps within the ceilings, the serials and the room.
#![tactic(auto)]

ghost use Rattle.std.specs.Prelude.{◌≡◌, ◌≢◌, true, length, MatchOption};
ghost use Rattle.rules.specs.Passing.{passes};
ghost use Rattle.rules.specs.WellFormed.{is_value};
ghost use Rattle.rules.specs.Given.{number_given, length_given, AnswersBy};
ghost use Rattle.layout.specs.Bodies.{width_of};
ghost use Rattle.lookup.specs.Bodies.{bodies_of};
ghost use Rattle.store_writer.specs.Writing.{limited};
ghost use Rattle.planned_rows.specs.Planned.{planned, planned_in};
ghost use Rattle.store_laws.specs.Forms.{form_read, Forms};
ghost use Rattle.planned_rows.specs.Walking.{Sized};

use row_walk::Plan;
use rules::Refusal;

/// 0 and the length of what was written, or the number of a refusal and 0: what the public calls answer. Numbers, since
/// C gets them from those calls (include/formstore.h).
#[repr(C)]
#[derive(Clone, Copy, PartialEq, Eq)]
pub struct Answer {
    pub number: u32,
    pub length: usize,
}

impl Answer {
    /// The length of what was written, if the call was accepted.
    pub fn accepted(self) -> Option<usize>
        ensures { MatchOption result (self.number ≢ 0) (λ length. (self.number ≡ 0) × (length ≡ self.length)) }
    {
        if self.number == 0 {
            Some(self.length)
        } else {
            None
        }
    }
}

impl From<Result<usize, Refusal>> for Answer {
    ghost from_gives = { λ given answer. (answer.number ≡ number_given given) × (answer.length ≡ length_given given) };

    fn from(given: Result<usize, Refusal>) -> Answer {
        match given {
            Ok(length) => Answer { number: 0, length },
            Err(refusal) => Answer {
                number: u32::from(refusal),
                length: 0,
            },
        }
    }
}

/// The store after a plan and with another form: `form` holds the bytes of its d definitions, p particles and a
/// attributes. Nothing is written before it is known that there is room.
pub fn edit_form(
    store: &[u8],
    form: &[u8],
    d: usize,
    p: usize,
    a: usize,
    plan: Plan,
    text: &[u8],
    out: &mut [u8],
) -> Result<usize, Refusal>
    requires { (passes store.now ≡ true) × (is_value (width_of store.now) text.now ≡ true) × Sized plan × Forms (width_of store.now) form.now d p a }
    ensures { AnswersBy
        (limited (length out.old)
        (planned_in (form_read (width_of store.now) form.now d p a) plan text.now (bodies_of store.now)))
        out.old result out.new }
{
    planned_rows::refusal(store, form.len(), plan, text, out.len())?;
    Ok(plan_writer::put_edited(store, form, d, p, a, plan, text, out))
}

/// The store after a plan that leaves its form as it is.
pub fn edit(store: &[u8], plan: Plan, text: &[u8], out: &mut [u8]) -> Result<usize, Refusal>
    requires { (passes store.now ≡ true) × (is_value (width_of store.now) text.now ≡ true) × Sized plan }
    ensures { AnswersBy (limited (length out.old) (planned plan text.now (bodies_of store.now))) out.old result out.new }
{
    let d = layout::definition_count(store);
    let p = layout::particle_count(store);
    let a = layout::attribute_count(store);
    let start = layout::header_size();
    let end = lookup::row_start(store);
    let form = &store[start..end];
    edit_form(store, form, d, p, a, plan, text, out)
}
