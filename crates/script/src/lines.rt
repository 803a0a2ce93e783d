// Lines of an input, by way of a buffer of 196,608 bytes.
//
// A last line without a newline is a line. A read that fails counts as the end of the input. A line that
// does not fit is made shorter where that does not change its meaning: a comment is cut to its first
// byte, and a zero that leads a number is dropped. So a line that still does not fit is malformed: 8,192
// numbers of 20 digits, a name and a lent count take fewer than 172,100 bytes.
ghost use Rattle.std.specs.Prelude.{◌≤◌, ◌<◌, ◌≡◌, length, IfSome, IfOk};

use crate::numbers::is_digit;
use crate::tokens::before;
use std::io::Read;

// A line that does not fit.
#[derive(Clone, Copy, Debug)]
pub struct TooLong;

// Whether there is more to read; after a line that does not fit nothing is read.
#[derive(Clone, Copy, PartialEq, Eq)]
enum State {
    Reading,
    Ended,
    TooLong,
}

// What was read and not yet handed out stands in the buffer from next to filled. The project has no heap, so the buffer is an array.
#[derive(Drop)]
pub struct Reader<R> {
    input: R,
    buf: [u8; 196608],
    next: usize,
    filled: usize,
    state: State,
    ghost rest: { next ≤ filled },
    ghost room: { filled ≤ 196608 },
}

impl<R: Read> Reader<R> {
    // Before the first line.
    pub fn new(input: R) -> Self {
        Reader {
            input,
            buf: [0; 196608],
            next: 0,
            filled: 0,
            state: State::Reading,
        }
    }

    // The next line, or none at the end of the input; reads on where the buffer does not hold the whole of it.
    pub fn next_line(&mut self) -> Option<Result<&[u8], TooLong>>
        ensures { IfSome result (λ found. IfOk found (λ line. length line.now ≤ 196608)) }
    {
        match self.find()? {
            Ok((start, end)) => {
                let read = &*self;
                Some(Ok(&read.buf[start..end]))
            }
            Err(TooLong) => Some(Err(TooLong)),
        }
    }

    // Where the next line starts and ends.
    fn find(&mut self) -> Option<Result<(usize, usize), TooLong>>
        ensures { IfSome result (λ found. IfOk found (λ place. (place.0 ≤ place.1) × (place.1 ≤ 196608))) }
    {
        // Every loop must end; a remark may go on as long as the input does, which is not read 2^64 times.
        for _ in 0..u64::MAX {
            let start = self.next;
            let end = start + before(b'\n', &self.buf[start..self.filled]);
            if end < self.filled {
                self.next = end + 1;
                return Some(Ok((start, end)));
            }
            if self.state != State::Reading {
                break;
            }
            self.read_on();
        }
        self.last()
    }

    // What is left at the end of the input: a line where there is anything.
    fn last(&mut self) -> Option<Result<(usize, usize), TooLong>>
        ensures { IfSome result (λ found. IfOk found (λ place. (place.0 ≤ place.1) × (place.1 ≤ 196608))) }
    {
        let start = self.next;
        self.next = self.filled;
        if self.state == State::TooLong {
            return Some(Err(TooLong));
        }
        self.state = State::Ended;
        if start == self.filled {
            return None;
        }
        Some(Ok((start, self.filled)))
    }

    // Brings what is not handed out to the front, makes room, and reads once.
    fn read_on(&mut self) {
        let kept = room(&mut self.buf, self.next, self.filled);
        self.next = 0;
        self.filled = kept;
        if kept == self.buf.len() {
            self.state = State::TooLong;
            return;
        }
        let got = self.input.read(&mut self.buf[kept..]).unwrap_or(0);
        self.filled = kept + got;
        if got == 0 {
            self.state = State::Ended;
        }
    }
}

// Moves the bytes from `from` up to `to` to the front, and answers how many are there; a line that fills
// the buffer is made shorter.
fn room(buf: &mut [u8], from: usize, to: usize) -> usize
    requires { (from ≤ to) × (to ≤ length buf.old) × (0 < length buf.old) }
    ensures { (result ≤ length buf.old) × (length buf.new ≡ length buf.old) }
{
    let kept = to - from;
    if kept < buf.len() {
        buf.copy_within(from..to, 0);
        return kept;
    }
    squeeze(buf)
}

// Makes the unfinished line that fills buf shorter, with the same meaning. By place, since the byte after is looked at while those before
// are written.
fn squeeze(buf: &mut [u8]) -> usize
    requires { 0 < length buf.old }
    ensures { (0 < result) × (result ≤ length buf.old) × (length buf.new ≡ length buf.old) }
{
    if buf[0] == b'#' {
        return 1;
    }
    let mut kept = 0;
    let mut before = 0;
    let end = buf.len() - 1;
    for i in 0..end {
        let byte = buf[i];
        if !leads(before, byte, buf[i + 1]) {
            buf[kept] = byte;
            kept += 1;
            before = byte;
        }
    }
    buf[kept] = buf[end];
    kept + 1
}

// Whether a byte is a zero that leads a number: it follows a space, and a digit follows it. Three bytes compared in one line, which the
// name says.
fn leads(before: u8, byte: u8, after: u8) -> bool {
    before == b' ' && byte == b'0' && is_digit(after)
}
