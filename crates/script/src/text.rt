// The text of answers, by way of a buffer of 65,536 bytes.
ghost use Rattle.std.specs.Prelude.{◌≡◌, ◌+◌, ◌≤◌, length};

use crate::numbers;
use std::io::Write;

// What a lent word holds before a call.
pub const FILL: u64 = 11_936_128_518_282_651_045;

// The text up to `at` waits to be written; `good` says whether every write so far was taken. The project has no heap, so the buffer is an array.
#[derive(Drop)]
pub struct Writer<W> {
    output: W,
    buf: [u8; 65536],
    at: usize,
    pub good: bool,
    ghost within: { at ≤ 65536 },
}

impl<W: Write> Writer<W> {
    pub fn new(output: W) -> Self {
        Writer {
            output,
            buf: [0; 65536],
            at: 0,
            good: true,
        }
    }

    // Writes what waits.
    pub fn flush(&mut self)
        ensures { self.new.at ≡ 0 }
    {
        let taken = self.output.write_all(&self.buf[..self.at]).is_ok();
        self.at = 0;
        self.good = self.good && taken;
    }

    // Sees that 20 bytes have room.
    fn make_room(&mut self)
        ensures { self.new.at + 20 ≤ 65536 }
    {
        if self.at > 65516 {
            self.flush();
        }
    }

    pub fn put_byte(&mut self, byte: u8) {
        self.make_room();
        self.buf[self.at] = byte;
        self.at += 1;
    }

    // A number in base ten, without leading zeros.
    pub fn put_number(&mut self, n: u64) {
        let mut digits = [0; 20];
        let from = numbers::spell(n, &mut digits);
        let text = &digits[from..];
        self.make_room();
        let end = self.at + text.len();
        self.buf[self.at..end].copy_from_slice(text);
        self.at = end;
    }

    // A number behind a space.
    pub fn put_word(&mut self, word: u64) {
        self.put_byte(b' ');
        self.put_number(word);
    }

    // Each number behind a space: words, or bytes.
    pub fn put_words<T: Copy + Into<u64>>(&mut self, words: &[T]) {
        for word in words {
            self.put_word((*word).into());
        }
    }

    // ` / ` and a lent list: its words, and a run at the end that still holds FILL as `*N`.
    pub fn put_lent(&mut self, lent: &[u64]) {
        let written = changed(lent);
        let same = (lent.len() - written) as u64;
        self.put_byte(b' ');
        self.put_byte(b'/');
        self.put_words(&lent[..written]);
        if same == 0 && 0 < written {
            return;
        }
        self.put_byte(b' ');
        self.put_byte(b'*');
        self.put_number(same);
    }
}

// How many words stand before the run at the end that still holds FILL.
fn changed(lent: &[u64]) -> usize
    ensures { result ≤ length lent.now }
{
    let last = lent.iter().rposition(|word| *word != FILL);
    last.map_or(0, |i| i + 1)
}
