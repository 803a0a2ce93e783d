// The lines that are written: the answer to a call, and the one that stops a script.
ghost use Rattle.std.specs.Prelude.{◌≤◌};
ghost use Rattle.ledger.specs.Contents.{Held};

use crate::dump;
use ledger::Ledger;
use script::calls::Code;
use script::{Call, Writer, calls as codes};
use std::io::Write;
use types::refusal::Refusal;

// What a call says: its answers, 0 where it has fewer than three, or why it is turned away.
pub type Reply = Result<[u64; 3], Refusal>;

// How many answers a call has. No column of the table: script knows nothing of what a call answers.
fn answers_of(code: Code) -> usize
    ensures { result ≤ 3 }
{
    match code.place {
        codes::NEW | codes::RESTORE | codes::CERTIFY => 0,
        codes::SETTLED | codes::RETURNED => 0,
        codes::RECORD_TERMINAL | codes::STAMP_TERMINAL | codes::DUMP => 0,
        codes::PRUNE => 2,
        codes::BUNDLE => 3,
        _ => 1,
    }
}

// A call's line: what it said, all that is held where it is a `dump`, and the list that it was lent.
pub fn put_reply<W: Write>(
    writer: &mut Writer<W>,
    call: Call,
    reply: Reply,
    ledger: &Ledger,
    list: &[u64],
)
    requires { Held ledger.now }
{
    put_answers(writer, call.code, reply);
    if call.code.place == codes::DUMP {
        dump::put_ledger(writer, ledger);
    }
    put_list(writer, call, list);
}

// status { " " answer }; after a refusal no answer. What `dump` says follows by itself.
fn put_answers<W: Write>(writer: &mut Writer<W>, code: Code, reply: Reply) {
    match reply {
        Ok(answers) => {
            writer.put_number(0);
            writer.put_words(&answers[..answers_of(code)]);
        }
        Err(refusal) => writer.put_number(refusal.number()),
    }
}

// [ " / " words ], the lent list as it stands after a call that takes one, and the line's end.
fn put_list<W: Write>(writer: &mut Writer<W>, call: Call, list: &[u64]) {
    if codes::takes_list(call.code) {
        writer.put_lent(list);
    }
    writer.put_byte(b'\n');
}

// Writes all that waits, and `? N`, N being the line's number.
pub fn stop<W: Write>(writer: &mut Writer<W>, at: u64) {
    writer.put_byte(b'?');
    writer.put_word(at);
    writer.put_byte(b'\n');
    writer.flush();
}
