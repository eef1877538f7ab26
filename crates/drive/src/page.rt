// What gathers until it is written out: answers, or what is said of bad lines.
ghost use Rattle.std.specs.Prelude.{◌≤◌, length};

use crate::BUFFER;
use std::io::{self, Print};

// A page is written out once it has so many bytes. The rest has room for any answer; the longest, a
// session that holds every entry, has some 4,000 bytes.
const FULL: usize = 49_152;

// What does not fit is dropped. A fixed buffer, so that nothing that is written asks for memory, which can
// fail.
#[derive(Drop)]
pub(crate) struct Page {
    bytes: [u8; BUFFER],
    to: usize,
    ghost within: { to ≤ length bytes },
}

impl Page {
    pub(crate) fn new() -> Self {
        Page {
            bytes: [0; BUFFER],
            to: 0,
        }
    }

    pub(crate) fn is_empty(&self) -> bool {
        self.to == 0
    }

    pub(crate) fn is_full(&self) -> bool {
        self.to >= FULL
    }

    #[tactic(auto, unfolding(text::specs::Text::place_after))]
    pub(crate) fn put(&mut self, text: &[u8]) {
        self.to = text::put(&mut self.bytes, self.to, text);
    }

    #[tactic(auto, unfolding(text::specs::Text::place_after))]
    pub(crate) fn put_decimal(&mut self, number: u64) {
        self.to = text::put_decimal(&mut self.bytes, self.to, number);
    }

    // The last `width` digits, in hexadecimal.
    #[tactic(auto, unfolding(text::specs::Text::place_after))]
    pub(crate) fn put_hex(&mut self, number: u64, width: usize) {
        self.to = text::put_hex(&mut self.bytes, self.to, number, width);
    }

    pub(crate) fn clear(&mut self) {
        self.to = 0;
    }

    pub(crate) fn write_to(&self, print: &impl Print) -> io::Result<()> {
        print.write_all(&self.bytes[..self.to])
    }
}
