// Pieces of answers.
use crate::page::Page;
use motor_core::error::Refusal;
use protocol_frame::Command;
use protocol_status::{StatusName, status_text};

impl Page {
    // The words and the number after them; 1 or 0 for a flag.
    pub(crate) fn put_numbered(&mut self, words: &[u8], number: impl Into<u64>) {
        self.put(words);
        self.put_decimal(number.into());
    }

    // A space and the number.
    pub(crate) fn put_next(&mut self, number: impl Into<u64>) {
        self.put_numbered(b" ", number);
    }

    // A space and the word.
    pub(crate) fn put_word(&mut self, word: &[u8]) {
        self.put(b" ");
        self.put(word);
    }

    // The words, and the frame's id and data.
    pub(crate) fn put_frame(&mut self, words: &[u8], command: Command) {
        self.put_numbered(words, command.arbitration_id);
        self.put(b" ");
        self.put_hex(command.data, 16);
    }

    // The words and the bits of a float.
    pub(crate) fn put_bits(&mut self, words: &[u8], bits: u32) {
        self.put(words);
        self.put_hex(u64::from(bits), 8);
    }

    // What a motor measures, a space before each.
    pub(crate) fn put_measured(&mut self, measured: [f32; 5]) {
        for x in measured {
            self.put_bits(b" ", float::to_bits(x).0);
        }
    }

    pub(crate) fn put_status_name(&mut self, name: StatusName) {
        self.put_word(status_text(name).as_bytes());
    }

    pub(crate) fn put_refused(&mut self, refusal: Refusal) {
        self.put_numbered(b"refused ", u8::from(refusal));
    }
}
