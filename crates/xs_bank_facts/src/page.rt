//! Text that the program prints.

use crate::calls::Refusal;
use std::alloc::Global;
use xs_bank::Trap;
use xs_base::{HeaderError, are_zero};

/// Text that grows by words. A word for which there was no memory is missing, and the text is then not whole.
#[derive(Drop)]
pub struct Page {
    /// The words.
    pub text: String,
    /// Whether none is missing.
    pub is_whole: bool,
}

/// The digits of numbers.
const DIGITS: [u8; 16] = *b"0123456789abcdef";

impl Page {
    /// No words.
    pub fn new(alloc: Global) -> Page {
        Page {
            text: String::new(alloc),
            is_whole: true,
        }
    }

    /// One word more.
    pub fn word(&mut self, word: &str) {
        let found = self.text.push_str(word).is_ok();
        self.is_whole &= found;
    }

    /// A hexadecimal digit.
    fn digit(&mut self, digit: u8) {
        let found = self
            .text
            .push(DIGITS[(digit & 15) as usize] as char)
            .is_ok();
        self.is_whole &= found;
    }

    /// Bytes, each as two digits.
    pub fn bytes(&mut self, bytes: &[u8]) {
        self.word(" ");
        for byte in bytes {
            self.digit(*byte >> 4);
            self.digit(*byte);
        }
    }

    /// An answer that is yes or no.
    pub fn fact(&mut self, is_so: bool) {
        self.word(if is_so { " yes" } else { " no" });
    }

    /// Whether a call was answered, and if not why.
    pub fn outcome(&mut self, outcome: Result<(), Refusal>) {
        match outcome {
            Ok(()) => self.word(" ok"),
            Err(refusal) => self.refusal(refusal),
        }
    }

    /// Why a call isn't answered.
    pub fn refusal(&mut self, refusal: Refusal) {
        match refusal {
            Refusal::NotMade => self.word(" not made"),
            Refusal::Trapped(Trap::Nm(set)) => {
                self.word(" #NM");
                self.number(set.0);
            }
            Refusal::Trapped(Trap::Gp(error)) => {
                self.word(" #GP");
                self.error(error);
            }
        }
    }

    /// The test of a header that failed.
    pub fn error(&mut self, error: HeaderError) {
        self.word(match error {
            HeaderError::Features => " features",
            HeaderError::Compacted => " compacted",
            HeaderError::Reserved => " reserved",
            HeaderError::Mxcsr => " mxcsr",
        });
    }

    /// A number in sixteen hexadecimal digits.
    pub fn number(&mut self, number: u64) {
        self.bytes(&number.to_be_bytes());
    }

    /// Behind the place of each eight bytes that aren't all zero these bytes.
    pub fn places(&mut self, bytes: &[u8]) {
        for i in 0..bytes.len() / 8 {
            self.place(i as u64 * 8, &bytes[i * 8..i * 8 + 8]);
        }
    }

    /// Bytes behind their place, where they aren't all zero.
    fn place(&mut self, at: u64, bytes: &[u8]) {
        if !are_zero(bytes) {
            self.word("\n     ");
            self.number(at);
            self.word(":");
            self.bytes(bytes);
        }
    }
}
