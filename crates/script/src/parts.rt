// A line of a script taken apart: its call, its numbers, and how long a list it lends.
//
// line = name { " " number } [ " lent " number ]. Zeros may lead a number. A lent count is 0 to 8,192, comes last
// and is not among the 8,192 numbers. `repeat` has one number from 1 and no lent. To a call that
// takes no list nothing is lent.
ghost use Rattle.std.specs.Prelude.{◌≡◌, IsTrue, IfSome, MatchResult, false, take};
ghost use Rattle.script.specs.Calls.{Takes};
ghost use Rattle.script.specs.Grammar.{behind, tail_of, numbers_of, lent_of, lent_number, is_remark, Small};
ghost use Rattle.script.specs.Parse.{Says, Fits};
ghost use Rattle.script.specs.declared.line.Line.{Line};

use crate::calls::{Code, Count, REPEAT};
use crate::line::{Call, Line};
use crate::lines::TooLong;
use crate::{calls, numbers, tokens};

// What stands behind a line's name: how many numbers, and the lent count where there is one.
#[derive(Clone, Copy)]
struct Tail {
    count: usize,
    lent: Option<usize>,
}

// Takes the line that `next_line` found apart; its numbers go to the front of numbers.
pub fn parse(found: Result<&[u8], TooLong>, numbers: &mut [u64; 8192]) -> Line
    ensures { MatchResult found.entry (λ line. Says line.now numbers.new result) (λ _. result ≡ Line.Malformed) }
{
    match found {
        Ok(line) => parse_line(line, numbers),
        Err(TooLong) => Line::Malformed,
    }
}

// The same of a line that fits.
pub fn parse_line(line: &[u8], numbers: &mut [u64; 8192]) -> Line
    ensures { Says line.now numbers.new result }
{
    if is_remark(line) {
        return Line::Skip;
    }
    call_in(line, numbers).unwrap_or(Line::Malformed)
}

// Whether a line is empty, or begins with `#`.
fn is_remark(line: &[u8]) -> bool
    ensures { result ≡ is_remark line.now }
{
    match line {
        [] => true,
        [first, ..] => *first == b'#',
    }
}

// What a line that is no remark has done, where it is well formed.
fn call_in(line: &[u8], numbers: &mut [u64; 8192]) -> Option<Line>
    requires { is_remark line.now ≡ false }
    ensures { IfSome result (Says line.now numbers.new) }
{
    let (name, rest) = tokens::cut(line);
    let code = calls::code_of(name)?;
    let tail = tail_of(rest, numbers)?;
    checked(code, tail, numbers[0])
}

// A call with what stands behind its name, where the two fit; it is lent nothing where it takes no list.
#[tactic(auto, using(crate::proofs::Table::repeat_takes_one))]
fn checked(code: Code, tail: Tail, first: u64) -> Option<Line>
    requires { Small tail }
    ensures { IfSome result (Fits code.place tail first) }
{
    if !takes(code, tail.count) {
        return None;
    }
    if code.place == REPEAT {
        return repeat(tail, first);
    }
    let lent = if calls::takes_list(code) {
        tail.lent.unwrap_or(0)
    } else {
        0
    };
    Some(Line::Call(Call {
        code,
        count: tail.count,
        lent,
    }))
}

// A line that has the next call made so often; it lends nothing.
fn repeat(tail: Tail, first: u64) -> Option<Line>
    requires { tail.count ≡ 1 }
    ensures { IfSome result (Fits REPEAT tail first) }
{
    if tail.lent.is_some() || first == 0 {
        return None;
    }
    Some(Line::Repeat(first))
}

// Whether a call takes so many numbers.
fn takes(code: Code, count: usize) -> bool
    ensures { IsTrue result → Takes code.place count }
{
    match calls::count_of(code) {
        Count::Just(own) => count == own,
        Count::From(least) => least <= count,
    }
}

// What stands behind a name, from its end on: numbers, and the lent count.
fn tail_of(text: &[u8], numbers: &mut [u64; 8192]) -> Option<Tail>
    ensures value { result ≡ tail_of 0 (behind text.now) }
    ensures numbers_after { IfSome result (λ t. take t.count numbers.new ≡ numbers_of (behind text.now)) }
{
    let mut rest = text;
    let mut count = 0;
    // A `while`, since the rest goes on by tokens, and what stands behind `lent` is handed on.
    while let Some((token, next)) = tokens::next(rest) {
        let is_lent = token == b"lent".as_slice();
        if is_lent {
            return with_lent(next, count);
        }
        let n = numbers::value_of(token)?;
        if count >= 8192 {
            return None;
        }
        numbers[count] = n;
        count += 1;
        rest = next;
    }
    Some(Tail { count, lent: None })
}

// The lent count, which begins behind a space and ends the text.
#[tactic(auto, using(crate::proofs::Grammar::lent_none, crate::proofs::Grammar::lent_several))]
fn with_lent(text: &[u8], count: usize) -> Option<Tail>
    ensures { result ≡ lent_of count (behind text.now) }
{
    let (token, rest) = tokens::next(text)?;
    if !rest.is_empty() {
        return None;
    }
    lent_number(numbers::value_of(token)?, count)
}

fn lent_number(lent: u64, count: usize) -> Option<Tail>
    ensures { result ≡ lent_number count lent }
{
    if lent > 8192 {
        return None;
    }
    Some(Tail {
        count,
        lent: Some(lent as usize),
    })
}
