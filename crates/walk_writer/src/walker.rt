//! What a walk goes by.

ghost use Rattle.walk_writer.specs.Step.{Ready};
ghost use Rattle.walk_writer.specs.Props.{walk_props};

use layout::Form;
use row_walk::Plan;

// The form of the store, the plan, and the value of the call, which go together.
#[derive(Clone, Copy)]
pub struct Walker<'a> {
    pub form: &'a Form<'a>,
    pub plan: &'a Plan,
    pub text: &'a [u8],
    ghost ready: { Ready form.now text.now plan.now } by { Prim.hlevel walk_props },
}
