//! An edit of a model, with the place that it is for.
ghost use Rattle.model_writer.specs.Writing.{edit_of};
ghost use Rattle.model_form.specs.Editing.{Edits};
ghost use Rattle.model_form.specs.Props.{fitting_prop};
ghost use Rattle.std.proofs.Props.{props};

use model::place::Found;
use model_writer::Edit;

/// An edit of the model of definition `owner` in a store, and what its place leads to there.
#[derive(Clone, Copy)]
pub struct PlacedEdit<'a> {
    pub store: &'a [u8],
    pub owner: usize,
    pub edit: Edit,
    pub place: Found,
    pub ghost fits: { Edits store.now owner (edit_of edit) place.holder place.particle } by { Prim.hlevel (props, fitting_prop) },
}

impl PlacedEdit<'_> {
    ghost use Rattle.std.specs.Prelude.{◌≡◌, true, ◌≤◌};
    ghost use Rattle.rules.specs.Layout.{each, particle_bytes};
    ghost use Rattle.rules.specs.WellFormed.{within_ceilings};
    ghost use Rattle.codec.specs.Laid.{Laid};
    ghost use Rattle.layout.specs.Bodies.{width_of, most_form};
    ghost use Rattle.store_laws.specs.Forms.{form_bytes, bare_form};
    ghost use Rattle.model_form.specs.Placed.{form_after};

    // The particles of the form after the edit.
    fn put_own(&self, out: &mut [u8], from: usize) -> usize
        requires { (within_ceilings (bare_form (form_after self.now)) ≡ true) × (from ≤ most_form) }
        ensures { Laid (each particle_bytes (form_after self.now).particles) out.old from result out.new }
    {
        let definitions = layout::definitions_of(self.store);
        let particles = layout::particles_of(self.store);
        let first = form_index::particles_before(definitions, self.owner);
        let k = form_index::model_length(definitions, self.owner);
        let at = self.place.particle;
        model_writer::put_particles(
            particles,
            first,
            k,
            self.edit,
            self.place.holder,
            at,
            out,
            from,
        )
    }

    /// The form after the edit, as bytes.
    pub fn put_edited(&self, out: &mut [u8]) -> usize
        requires { within_ceilings (bare_form (form_after self.now)) ≡ true }
        ensures { Laid (form_bytes (width_of self.now.store.now) (form_after self.now)) out.old 0 result out.new }
    {
        let count = crate::own_after(self.store, self.owner, self.edit);
        let table = layout::definitions_of(self.store);
        let next = layout_writer::put_counted(table, self.owner, count as u32, out, 0);
        let end = self.put_own(out, next);
        codec::put(layout::attributes_of(self.store), out, end)
    }
}
