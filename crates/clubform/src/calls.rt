//! The thirteen calls, in their order: each is accepted, and leaves the next store. Two buffers take turns.
ghost use Rattle.std.specs.Prelude.{◌≡◌, length};
ghost use Rattle.clubform.specs.History.{stage, BufferHolds};

use rules::{Kind, Quantifier};
use sample_stores::FRESH;
use store_writer::Answer;

const PCDATA: u32 = Kind::Pcdata as u32;

const COMPLEX: u32 = Kind::Complex as u32;

const NONE: u32 = Quantifier::None as u32;

const QMARK: u32 = Quantifier::Qmark as u32;

const STAR: u32 = Quantifier::Star as u32;

// The definitions, by index.
const RACE: u32 = 0;

const FINISHER: u32 = 1;

const BIB: u32 = 2;

const TIME: u32 = 3;

const CLUB: u32 = 4;

/// The length of what an accepted call wrote.
pub fn written(answer: Answer) -> usize
    requires { answer.number ≡ 0 }
    ensures { result ≡ answer.length }
{
    answer.accepted().unwrap()
}

/// race, finisher, bib, time.
pub fn create_definitions(from: &mut [u8], to: &mut [u8]) -> usize
    requires { (length from.old ≡ 508) × (length to.old ≡ 508) }
    ensures { BufferHolds (stage 4) result to.new }
{
    let race = written(formstore::create_definition(&FRESH, b"race", COMPLEX, from));
    let finisher = written(formstore::create_definition(&from[..race], b"finisher", COMPLEX, to));
    let bib = written(formstore::create_definition(&to[..finisher], b"bib", PCDATA, from));
    written(formstore::create_definition(&from[..bib], b"time", PCDATA, to))
}

// From here on the length of `from`'s store stands beside `from`: a call writes into the whole of it, too.

/// The models of race and of finisher.
pub fn insert_members(from: &mut [u8], len: usize, to: &mut [u8]) -> usize
    requires { BufferHolds (stage 4) len from.old × (length to.old ≡ 508) }
    ensures { BufferHolds (stage 7) result to.new }
{
    let one = written(formstore::insert_element(&from[..len], RACE, &[0], FINISHER, STAR, b"", to));
    let two = written(formstore::insert_element(&to[..one], FINISHER, &[0], BIB, NONE, b"0", from));
    written(formstore::insert_element(&from[..two], FINISHER, &[1], TIME, NONE, b"-", to))
}

/// A race with one finisher, and the time. Serial 1 is the race, serial 5 the time.
pub fn hold_race(from: &mut [u8], len: usize, to: &mut [u8]) -> usize
    requires { BufferHolds (stage 7) len from.old × (length to.old ≡ 508) }
    ensures { BufferHolds (stage 10) result to.new }
{
    let race = written(formstore::add_document(&from[..len], RACE, b"", to));
    let finisher = written(formstore::add_element(&to[..race], 1, 0, FINISHER, b"7", from));
    written(formstore::set_text(&from[..finisher], 5, b"19:04", to))
}

/// The club comes in while the race is there, and the time may be missing.
pub fn change_finisher(from: &mut [u8], len: usize, to: &mut [u8]) -> usize
    requires { BufferHolds (stage 10) len from.old × (length to.old ≡ 508) }
    ensures { BufferHolds (stage 13) result to.new }
{
    let club = written(formstore::create_definition(&from[..len], b"club", PCDATA, to));
    let inserted = written(formstore::insert_element(
        &to[..club],
        FINISHER,
        &[1],
        CLUB,
        NONE,
        b"none",
        from,
    ));
    written(formstore::change_quantifier(&from[..inserted], FINISHER, &[3], QMARK, b"", to))
}
