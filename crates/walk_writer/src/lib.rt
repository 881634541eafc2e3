//! The one walk over the tree rows that changes 2 to 16 share: it keeps, takes with all below, gives a value, puts
//! fillings in and renumbers, as a plan says.
#![tactic(auto)]

ghost use Rattle.std.specs.Prelude.{◌≡◌, [], ◌∷◌, ◌*◌, ◌<◌, ◌≤◌, length};
ghost use Rattle.rules.specs.Layout.{row_size};
ghost use Rattle.rules.specs.Decode.{read_row, read_many};
ghost use Rattle.layout.specs.Bodies.{Width};
ghost use Rattle.row_writer.specs.Written.{Written, Room};
ghost use Rattle.filling.specs.Parts.{Asks, Indexed};
ghost use Rattle.row_walk.specs.Walk.{kept_row, owed, walked, at_first};
ghost use Rattle.row_walk.specs.Step.{row_of_head, Planned};
ghost use Rattle.walk_writer.specs.Step.{Came, plan_filling, Settled, Ready, Near, WalkRow, Seen, WalkRows, PlainRows, Advances};
ghost use Rattle.walk_writer.specs.Going.{fill_by, come_rows, come_open, goes_rows, goes_open};

mod walker;

use filling::Filling;
use layout::Form;
use row_walk::{Head, Open, Plan};
use row_writer::Cursor;
use walker::Walker;

/// How many rows have been passed, and what is open after them.
#[derive(Clone, Copy)]
pub struct Run {
    pub count: usize,
    pub opened: Open,
}

// ---- rows

/// What the walk reads of a row.
pub fn read_head(row: &[u8]) -> Head
    ensures { row_of_head result (read_row row.now).row.value ≡ read_row row.now }
{
    Head {
        depth: layout::row_depth(row) as usize,
        sort: layout::row_sort(row),
        index: layout::row_index(row) as usize,
        serial: layout::row_serial(row) as usize,
    }
}

// ---- the walk

// The filling that the walk goes with: nothing, if that of the plan has no rows, so that the members of a group are not
// gone through again at each place. It is written up to its first row, into a buffer of one byte.
fn filling_with_rows(form: &Form<'_>, what: Filling, text: &[u8]) -> Filling
    requires { Indexed what × Asks form.now (record { at = 0; left = 1; serial = 0 }) text.now form.now.definition_count 0 }
    ensures { Settled form.now text.now what result }
{
    let mut clipped = [0; 1];
    let mut c = Cursor {
        at: 0,
        left: 1,
        serial: 0,
    };
    filling::put_filling(what, form, text, 0, &mut c, &mut clipped);
    if c.left == 0 {
        return what;
    }
    Filling::Nothing
}

// How many of the first rows of `most` stay as they are.
fn plain_rows(w: usize, plan: &Plan, rows: &[u8], most: usize, o: Open) -> Run
    requires { Width w × Planned plan.now × WalkRows w most rows.now × (row_size w * most ≤ length rows.now) × Near o }
    ensures { PlainRows w plan.now rows.now most o result }
{
    let size = layout::row_size(w);
    // By hand: what is open goes on from row to row and is part of the answer, so `position` would be no plainer.
    let mut t = rows;
    let mut m = most;
    let mut q = o;
    while 0 < m {
        let row = &t[..size];
        let h = read_head(row);
        if !row_walk::is_plain(plan, q, h) {
            return Run {
                count: most - m,
                opened: q,
            };
        }
        let u = row_walk::closed(q, h);
        q = row_walk::kept(plan, u, h, u.due);
        t = &t[size..];
        m -= 1;
    }
    Run {
        count: most,
        opened: q,
    }
}

impl Walker<'_> {
    // The filling at a depth, if it is due: `due` is a test's answer, so that one `if` stands here for three callers.
    fn put_owed(&self, due: bool, depth: usize, c: &mut Cursor, out: &mut [u8])
        requires { Asks self.now.form.now c.old self.now.text.now self.now.form.now.definition_count depth }
        ensures { Written self.now.form.now.width (owed due (fill_by self.now depth)) c.old out.old c.new out.new }
    {
        if due {
            filling::put_filling(self.plan.filling, self.form, self.text, depth, c, out);
        }
    }

    // A row that is kept, with its index after the change, and with the text where the plan gives it.
    fn put_row(&self, h: Head, row: &[u8], c: &mut Cursor, out: &mut [u8])
        requires { Seen self.now.form.now.width h row.now × Room self.now.form.now.width c.old }
        ensures { Written self.now.form.now.width (kept_row self.now.plan.now self.now.text.now (read_row row.now) ∷ [])
            c.old out.old c.new out.new }
    {
        let w = self.form.width;
        let index = row_walk::moved_index(self.plan, h);
        if row_walk::is_valued(self.plan, h) {
            return row_writer::put_valued(w, row, index, self.text, c, out);
        }
        row_writer::put_kept(w, row, index, c, out)
    }

    // What is open after a row, where what it closes is closed.
    fn come(&self, h: Head, row: &[u8], o: Open, c: &mut Cursor, out: &mut [u8]) -> Open
        requires { Seen self.now.form.now.width h row.now × Room self.now.form.now.width c.old }
        ensures { Came self.now.form.now.width (come_rows self.now o (read_row row.now)) (come_open self.now o (read_row row.now))
            c.old out.old c.new result out.new }
    {
        if row_walk::is_taken(self.plan, o, h) {
            return row_walk::taken(o, h);
        }
        let filled = row_walk::is_filled(self.plan, o, h);
        self.put_owed(filled, h.depth, c, out);
        self.put_row(h, row, c, out);
        let due = o.due & !row_walk::ends_due(self.plan, o, h);
        row_walk::kept(self.plan, o, h, due)
    }

    // What is open after one row.
    fn step(&self, row: &[u8], o: Open, c: &mut Cursor, out: &mut [u8]) -> Open
        requires { WalkRow self.now.form.now.width row.now × Near o × Room self.now.form.now.width c.old }
        ensures { Came self.now.form.now.width (goes_rows self.now o (read_row row.now)) (goes_open self.now o (read_row row.now))
            c.old out.old c.new result out.new }
    {
        let h = read_head(row);
        if row_walk::gone(o, h) {
            return o;
        }
        let due = row_walk::closes(o, h) & o.due;
        let depth = o.below.unwrap_or(0);
        self.put_owed(due, depth, c, out);
        let q = row_walk::closed(o, h);
        self.come(h, row, q, c, out)
    }

    // The rows that stay as they are, as one block, and the row after them; no more rows than may be written.
    fn pass(&self, rows: &[u8], count: usize, o: Open, c: &mut Cursor, out: &mut [u8]) -> Run
        requires { WalkRows self.now.form.now.width count rows.now
            × (row_size self.now.form.now.width * count ≤ length rows.now) × Near o × Room self.now.form.now.width c.old
            × (0 < count) × (0 < c.old.left) }
        ensures { Advances self.now.form.now.width self.now.plan.now self.now.text.now (fill_by self.now) rows.now count o
            c.old out.old c.new result out.new }
    {
        let w = self.form.width;
        let most = count - layout::minus(count, c.left);
        let run = plain_rows(w, self.plan, rows, most, o);
        row_writer::put_block(w, rows, run.count, c, out);
        if run.count == most {
            return run;
        }
        let size = layout::row_size(w);
        let row = layout::window(rows, size * run.count, size);
        let opened = self.step(row, run.opened, c, out);
        Run {
            count: run.count + 1,
            opened,
        }
    }

    // The walk over `count` rows. It stops where no row may be written any more.
    fn over(&self, rows: &[u8], count: usize, c: &mut Cursor, out: &mut [u8])
        requires { WalkRows self.now.form.now.width count rows.now
            × (row_size self.now.form.now.width * count ≤ length rows.now) × Room self.now.form.now.width c.old }
        ensures { Written self.now.form.now.width
            (walked self.now.plan.now self.now.text.now (fill_by self.now) (at_first self.now.plan.now)
            (read_many read_row (row_size self.now.form.now.width) count rows.now))
            c.old out.old c.new out.new }
    {
        let size = layout::row_size(self.form.width);
        // By hand: each step goes on by as many rows as it passed, which no iterator does.
        let mut t = rows;
        let mut m = count;
        let mut o = row_walk::at_first(self.plan);
        while 0 < m {
            if c.left == 0 {
                return;
            }
            let run = self.pass(t, m, o, c, out);
            o = run.opened;
            let long = size * run.count;
            t = &t[long..];
            m -= run.count;
        }
        let depth = o.below.unwrap_or(0);
        self.put_owed(o.due, depth, c, out)
    }
}

/// The walk over `count` rows of a store with a form.
pub fn walk(
    form: &Form<'_>,
    rows: &[u8],
    count: usize,
    plan: Plan,
    text: &[u8],
    c: &mut Cursor,
    out: &mut [u8],
)
    requires { Ready form.now text.now plan × WalkRows form.now.width count rows.now
        × (row_size form.now.width * count ≤ length rows.now) × Room form.now.width c.old }
    ensures { Written form.now.width
        (walked plan text.now (plan_filling form.now plan text.now) (at_first plan)
        (read_many read_row (row_size form.now.width) count rows.now))
        c.old out.old c.new out.new }
{
    let filling = filling_with_rows(form, plan.filling, text);
    let settled = Plan { filling, ..plan };
    let walker = Walker {
        form,
        plan: &settled,
        text,
    };
    walker.over(rows, count, c, out)
}
