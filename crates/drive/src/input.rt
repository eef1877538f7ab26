// The lines of the input, however it is cut by the reads.
ghost use Rattle.std.specs.Prelude.{◌≤◌, ◌<◌, length};

use crate::BUFFER;
use script::MAX_LINE;
use std::io::{Print, Read};

// A line without its newline, and its number, from 1 on. Of a line that is known to be too long the text
// lacks bytes.
#[derive(Clone, Copy)]
pub(crate) struct Line<'a> {
    pub(crate) text: &'a [u8],
    pub(crate) number: u64,
    pub(crate) is_long: bool,
}

// The bytes that are read and not taken lie from `next` to `filled`, in a fixed buffer as a page is.
#[derive(Drop)]
pub(crate) struct Input {
    bytes: [u8; BUFFER],
    next: usize,
    filled: usize,
    ghost ordered: { next ≤ filled },
    ghost within: { filled ≤ length bytes },
    // whether they go on a line that is too long, of which the bytes before them are dropped
    is_long: bool,
    is_over: bool,
    lines: u64,
}

impl Input {
    pub(crate) fn new() -> Self {
        Input {
            bytes: [0; BUFFER],
            next: 0,
            filled: 0,
            is_long: false,
            is_over: false,
            lines: 0,
        }
    }

    // Whether the last read was the last of all.
    pub(crate) fn is_over(&self) -> bool {
        self.is_over
    }

    // Takes the next line, where a whole one is left.
    pub(crate) fn next_line(&mut self) -> Option<Line<'_>> {
        let from = self.next;
        let length = self.bytes[from..self.filled]
            .iter()
            .position(|byte| *byte == b'\n')?;
        self.next += length + 1;
        self.lines = self.lines.wrapping_add(1);
        let is_long = self.is_long;
        self.is_long = false;
        Some(Line {
            text: &self.bytes[from..from + length],
            number: self.lines,
            is_long,
        })
    }

    // Reads once, after the unfinished line. At the end of the input that is the last line, and a
    // newline is put after it.
    pub(crate) fn read_more(&mut self, stdin: &mut impl Read, stderr: &impl Print) {
        self.keep_rest();
        let read = match stdin.read(&mut self.bytes[self.filled..]) {
            Ok(read) => read,
            Err(_) => {
                complain(stderr, b"drive: the input cannot be read\n");
                0
            }
        };
        self.filled += read;
        if read == 0 {
            self.is_over = true;
            self.bytes[self.filled] = b'\n';
            self.filled += 1;
        }
    }

    // Moves the unfinished line to the front; of one that is too long no byte is kept, so that a read has the
    // whole buffer and its bytes are gone through once.
    fn keep_rest(&mut self)
        ensures { self.new.filled < length self.new.bytes }
    {
        let length = self.filled - self.next;
        if self.is_long || length > MAX_LINE {
            self.is_long = true;
            self.next = 0;
            self.filled = 0;
            return;
        }
        self.bytes.copy_within(self.next..self.filled, 0);
        self.next = 0;
        self.filled = length;
    }
}

pub(crate) fn complain(stderr: &impl Print, line: &[u8]) {
    let _ = stderr.write_all(line);
}
