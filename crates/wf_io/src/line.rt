//! A buffer in which a line of text is built.

ghost use Rattle.std.specs.Prelude.{◌≡◌, ◌+◌, ◌<◌, ◌≤◌, List, [], ◌∷◌, ◌++◌, ℕ, length, map, sum_by, decimal};
ghost use Rattle.std.specs.Fmt.{signed_decimal};
ghost use Rattle.std.specs.List.{join_with_byte};

use arrayvec::ArrayVec;
use itoa::Buffer;
use std::marker::Model;

/// A word of a line.
#[derive(Clone, Copy)]
pub enum Word {
    /// The text itself.
    Text(&'static [u8]),
    /// A number in decimal digits.
    Number(u64),
    /// A number in decimal digits, with `-` before it if it is below 0.
    Signed(i64),
}

/// The octets of a line: at most 8192, in a buffer of fixed size.
#[derive(Drop)]
pub struct Line {
    buffer: ArrayVec<u8, 8192>,
}

impl Model for Line {
    ghost Value = { List ℕ };

    ghost view = { λ line. line.buffer.items };
}

impl Line {
    ghost use Rattle.wf_io.specs.Words.{words_text, width_of, spaced};

    /// Returns the empty line.
    pub fn new() -> Self
        ensures { result ≡ [] }
    {
        Line {
            buffer: ArrayVec::new(),
        }
    }

    /// Appends an octet. The line must have fewer than 8192.
    pub fn push(&mut self, octet: u8)
        requires { length self.old < 8192 }
        ensures { self.new ≡ self.old ++ octet ∷ [] }
    {
        self.buffer.push(octet);
    }

    /// Appends octets. The line must have at most 8192 afterwards.
    pub fn push_all(&mut self, octets: &[u8])
        requires { length self.old + length octets.now ≤ 8192 }
        ensures octets { self.new ≡ self.old ++ octets.now }
        ensures len { length self.new ≡ length self.old + length octets.now }
    {
        self.buffer.try_extend_from_slice(octets).unwrap();
    }

    /// Appends a number in decimal digits, at most 20. There must be room for 20 octets.
    pub fn push_number(&mut self, number: u64)
        requires { length self.old + 20 ≤ 8192 }
        ensures digits { self.new ≡ self.old ++ decimal number }
        ensures len { length self.new ≤ length self.old + 20 }
    {
        if number < 10 {
            self.push(b'0' + number as u8);
            return;
        }
        let mut digits = Buffer::new();
        self.push_all(digits.format(number).as_bytes());
    }

    /// Appends a number in decimal digits, with `-` before it if it is below 0: at most 21 octets, for which
    /// there must be room.
    pub fn push_signed(&mut self, number: i64)
        requires { length self.old + 21 ≤ 8192 }
        ensures digits { self.new ≡ self.old ++ signed_decimal number }
        ensures len { length self.new ≤ length self.old + 21 }
    {
        if number < 0 {
            self.push(b'-');
        }
        self.push_number(number.unsigned_abs());
    }

    /// Appends words, with a space before each. There must be room for their greatest widths and the spaces.
    pub fn push_words(&mut self, words: &[Word])
        requires { length self.old + sum_by (λ w. width_of w + 1) words.now ≤ 8192 }
        ensures text { self.new ≡ self.old ++ spaced (map words_text words.now) }
        ensures len { length self.new ≤ length self.old + sum_by (λ w. width_of w + 1) words.now }
    {
        for word in words {
            self.push(b' ');
            match *word {
                Word::Text(text) => self.push_all(text),
                Word::Number(number) => self.push_number(number),
                Word::Signed(number) => self.push_signed(number),
            }
        }
    }

    /// Appends a whole line: a word, further words with a space before each, and the octet 10.
    pub fn push_line(&mut self, word: &'static [u8], words: &[Word])
        requires { length self.old + length word.now + sum_by (λ w. width_of w + 1) words.now < 8192 }
        ensures text { self.new ≡ self.old
            ++ (join_with_byte 32 (word.now ∷ map words_text words.now) ++ 10 ∷ []) }
        ensures len { length self.new
            ≤ length self.old + length word.now + sum_by (λ w. width_of w + 1) words.now + 1 }
    {
        self.push_all(word);
        self.push_words(words);
        self.push(b'\n');
    }

    /// Returns the octets of the line.
    pub fn octets(&self) -> &[u8]
        ensures { result.now ≡ self.now }
    {
        self.buffer.as_slice()
    }

    /// Empties the line.
    pub fn clear(&mut self)
        ensures { self.new ≡ [] }
    {
        self.buffer.clear();
    }
}
