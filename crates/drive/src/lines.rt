// The lines of the input are answered one after another. What is written gathers until the next read,
// or until there is much of it.
use crate::answer::answer;
use crate::input::{Input, Line, complain};
use crate::notes::put_note;
use crate::page::Page;
use script::Fault;
use session::Session;
use std::io::{Print, Read};

// Reads and answers to the end of the input, or until an answer cannot be written. A proved loop has
// to end, and nothing says that the input does, so it has a bound that no input reaches.
pub(crate) fn run(stdin: &mut impl Read, stdout: &impl Print, stderr: &impl Print) {
    let mut input = Input::new();
    let mut session = None;
    let mut answers = Page::new();
    let mut notes = Page::new();
    for _ in 0..u64::MAX {
        match input.next_line() {
            Some(line) => {
                answer_line(&mut answers, &mut notes, &mut session, line);
                if answers.is_full() {
                    write_answers(stdout, &mut answers);
                }
                if notes.is_full() {
                    write_notes(stderr, &mut notes);
                }
            }
            None => {
                write_answers(stdout, &mut answers);
                write_notes(stderr, &mut notes);
                if input.is_over() || !answers.is_empty() {
                    break;
                }
                input.read_more(stdin, stderr);
            }
        }
    }
    if !answers.is_empty() {
        complain(stderr, b"drive: the output cannot be written\n");
    }
}

// A call's answer, and why a line is bad.
fn answer_line(answers: &mut Page, notes: &mut Page, session: &mut Option<Session>, line: Line) {
    let call = if line.is_long {
        Err(Fault::LongLine)
    } else {
        script::parse(line.text)
    };
    match call {
        Ok(Some(call)) => {
            if let Err(refusal) = answer(answers, session, call, line.text) {
                answers.put_refused(refusal);
            }
            answers.put(b"\n");
        }
        Ok(None) => {}
        Err(fault) => {
            answers.put(b"bad line\n");
            put_note(notes, fault, line);
        }
    }
}

// Answers that cannot be written stay.
fn write_answers(stdout: &impl Print, answers: &mut Page) {
    if answers.write_to(stdout).is_ok() {
        answers.clear();
    }
}

// Notes that cannot be written are dropped.
fn write_notes(stderr: &impl Print, notes: &mut Page) {
    let _ = notes.write_to(stderr);
    notes.clear();
}
