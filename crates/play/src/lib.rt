//! A store that is carried through changes, each of which prints its number.
#![tactic(auto)]

use store_writer::Answer;

/// A store: the first `length` of the bytes. An array with a length beside it, since there is no heap.
#[derive(Clone, Copy)]
pub struct Play {
    bytes: [u8; 2048],
    length: usize,
}

pub fn tell(what: &[u8]) {
    io::write_all(1, what);
}

/// Prints a number, after a space.
pub fn tell_number(number: u64) {
    tell(b" ");
    io::print_decimal(1, number);
}

impl Play {
    /// The fresh store.
    pub fn fresh() -> Play {
        let mut bytes = [0; 2048];
        bytes[..40].copy_from_slice(&sample_stores::FRESH);
        Play { bytes, length: 40 }
    }

    fn store(&self) -> &[u8] {
        codec::part(&self.bytes, 0, self.length)
    }

    /// Makes a call and prints its number: the store that was written, or the one that was there.
    pub fn after<F: FnOnce(&[u8], &mut [u8]) -> Answer>(self, call: F) -> Play
        requires { F.IsAlwaysCallable call }
    {
        let mut bytes = [0; 2048];
        let answer = call(self.store(), &mut bytes);
        tell_number(u64::from(answer.number));
        match answer.accepted() {
            Some(length) => Play { bytes, length },
            None => self,
        }
    }

    /// Prints the store.
    pub fn show(&self) {
        let mut text = [0; 2048];
        let answer = formstore::print(self.store(), &mut text);
        tell(codec::part(&text, 0, answer.length));
    }

    /// Ends the line of numbers with the store's length and next serial, and prints it.
    pub fn show_after(&self) {
        tell(b"; now");
        tell_number(self.length as u64);
        tell(b" bytes, next serial");
        tell_number(layout::next_serial(self.store()) as u64);
        tell(b"\n");
        self.show();
    }

    /// Whether two stores are the same bytes.
    pub fn tell_same(&self, other: &Play) {
        if self.store() == other.store() {
            tell(b"the same bytes as at first\n");
        } else {
            tell(b"other bytes than at first\n");
        }
    }
}
