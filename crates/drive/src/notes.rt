// What drive says of a bad line on standard error.
use crate::help::{call_text, put_help};
use crate::input::Line;
use crate::page::Page;
use script::{CallName, Fault};
use script_words::Kind;

// Why the line is bad; where it asks for help, the help.
pub(crate) fn put_note(page: &mut Page, fault: Fault, line: Line) {
    if fault == Fault::UnknownWord && line.text == b"help".as_slice() {
        put_help(page);
    } else {
        page.put_numbered(b"line ", line.number);
        page.put(b": ");
        put_fault(page, fault);
        page.put(b"\n");
    }
}

fn put_fault(page: &mut Page, fault: Fault) {
    match fault {
        Fault::LongLine => page.put(b"longer than 4095 bytes"),
        Fault::ControlByte => page.put(b"a tab or a carriage return"),
        Fault::UnknownWord => page.put(b"unknown word, the line help lists the calls"),
        Fault::NotLent(name) => put_of_call(page, b"lent cannot stand before ", name),
        Fault::TooFew(name) => put_of_call(page, b"too few arguments for ", name),
        Fault::TooMany(name) => put_of_call(page, b"too many arguments for ", name),
        Fault::WrongArgument(name, place, kind) => put_argument(page, name, place, kind),
    }
}

fn put_of_call(page: &mut Page, words: &[u8], name: CallName) {
    page.put(words);
    page.put(call_text(name));
}

// Which argument does not fit, and what is wanted.
fn put_argument(page: &mut Page, name: CallName, place: usize, kind: Kind) {
    page.put_numbered(b"argument ", place as u64);
    page.put(b" does not fit: ");
    page.put(wanted(kind));
    page.put(b" is wanted for ");
    page.put(call_text(name));
}

fn wanted(kind: Kind) -> &'static [u8] {
    match kind {
        Kind::Flag => b"0 or 1",
        Kind::U8 => b"a number of 8 bits",
        Kind::U16 => b"a number of 16 bits",
        Kind::U32 => b"a number of 32 bits",
        Kind::U64 => b"a number of 64 bits",
        Kind::Name => b"a name",
    }
}
