// The whole ledger, each of its words behind a space: those of its snapshot without the entries' lengths, and the index.
ghost use Rattle.ledger.specs.Contents.{Held};

use ledger::Ledger;
use script::Writer;
use snapshots::write::{SNAPSHOT_ROOM, whole_snapshot};
use std::io::Write;
use store::issuers::Issuers;
use types::Transaction;

pub fn put_ledger<W: Write>(writer: &mut Writer<W>, ledger: &Ledger)
    requires { Held ledger.now }
{
    let mut words = [0; SNAPSHOT_ROOM];
    let end = whole_snapshot(ledger, &mut words);
    let lengths_at = 7 + 2 * ledger.counts.front.len;
    let entries_at = lengths_at + ledger.roster.len;
    writer.put_words(&words[..lengths_at]);
    writer.put_word(ledger.issuers.len as u64);
    writer.put_words(&words[entries_at..end]);
    put_index(writer, &ledger.issuers);
}

// Record and transaction of each pair.
fn put_index<W: Write>(writer: &mut Writer<W>, issuers: &Issuers) {
    let n = issuers.len;
    for (record, tx) in issuers.records[..n].iter().zip(&issuers.transactions[..n]) {
        let mut words = [*record, 0];
        Transaction(*tx).put(&mut words, 1);
        writer.put_words(&words);
    }
}
