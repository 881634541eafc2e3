//! The club's race, by the public calls: every number that they answer
//! is checked, and the text of the last store is printed.
#![tactic(auto)]

ghost use Rattle.clubform.specs.History.{stage, last_text, Reads, BufferHolds};

mod calls;

// The text of the last store.
fn put_text(store: &[u8], out: &mut [u8]) -> usize
    requires { Reads (stage 13) store.now out.old }
    ensures { BufferHolds last_text result out.new }
{
    calls::written(formstore::print(store, out))
}

fn main() {
    let mut one = [0; 508];
    let mut two = [0; 508];
    let defined = calls::create_definitions(&mut one, &mut two);
    let formed = calls::insert_members(&mut two, defined, &mut one);
    let held = calls::hold_race(&mut one, formed, &mut two);
    let changed = calls::change_finisher(&mut two, held, &mut one);
    check::expect(changed == 508);
    check::expect(layout::next_serial(&one) == 9);
    let written = put_text(&one, &mut two);
    io::write_all(1, &two[..written]);
}
