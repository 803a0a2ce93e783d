// A bundle: what a block brings, handed over at once. Its items change a copy of the ledger, by rising kind, each as its single call does; the
// first that is refused refuses the bundle, and the copy is dropped.
#![tactic(auto)]

ghost use Rattle.std.specs.Prelude.{[]};
ghost use Rattle.lists.specs.Lists.{keep};
ghost use Rattle.rules.specs.Words.{is_kind, items_written};
ghost use Rattle.rules.specs.Calls.{terminal_item, absence_item, after_item, after_bundle};
ghost use Rattle.ledger.specs.Contents.{Held, contents};
ghost use Rattle.ledger.specs.Meets.{Meets, saying};
ghost use Rattle.bundles.specs.Doing.{Did, AllItems};
ghost use Rattle.words.specs.Bundle.{item_of};

use batches::abandonment::record_abandonment;
use batches::finalization::release_resolved;
use calls::admission::register_committed;
use calls::certificate::record_absence;
use calls::terminal::record_terminal;
use ledger::{Ledger, Said};
use lists::slices::word_at;
use types::refusal::Refusal;
use types::{Shard, Time, Transaction};
use words::bundle::Bundle;

// An item that is a terminal: the four words of the call.
fn terminal_item(ledger: &mut Ledger, words: &[u64]) -> Said
    requires { Held ledger.old }
    ensures { Meets (terminal_item words.now (contents ledger.old)) [] [] (saying result ledger.new) }
{
    if words.len() != 4 {
        return Err(Refusal::Malformed);
    }
    let shard = Shard(word_at(words, 0));
    let cut = Time(word_at(words, 1));
    let until = Time(word_at(words, 3));
    record_terminal(ledger, shard, cut, word_at(words, 2), until)
}

// An item that is an absence: transaction, shard and key.
fn absence_item(ledger: &mut Ledger, words: &[u64]) -> Said
    requires { Held ledger.old }
    ensures { Meets (absence_item words.now (contents ledger.old)) [] [] (saying result ledger.new) }
{
    if words.len() != 3 {
        return Err(Refusal::Malformed);
    }
    let tx = Transaction::read(words, 0);
    record_absence(ledger, tx, Shard(word_at(words, 1)), word_at(words, 2))
}

// An item of a kind; 5 and every other kind is an absence.
fn item(ledger: &mut Ledger, kind: u64, words: &[u64]) -> Said
    requires { Held ledger.old }
    ensures { Meets (after_item (item_of kind words.now) (contents ledger.old)) [] [] (saying result ledger.new) }
{
    match kind {
        1 => terminal_item(ledger, words),
        2 => record_abandonment(ledger, words),
        3 => release_resolved(ledger, words),
        4 => register_committed(ledger, words),
        _ => absence_item(ledger, words),
    }
}

// The items of a kind, as written, up to the first that is refused; what they answer in all.
fn items(ledger: &mut Ledger, bundle: Bundle<'_>, kind: u64) -> Result<u64, Refusal>
    requires { Held ledger.old }
    ensures { Did kind (keep (is_kind kind) (items_written bundle.entry.words.now)) (contents ledger.old) result ledger.new }
{
    let mut at = bundle.items_at();
    let mut count = 0;
    for i in 0..bundle.len() {
        let words = bundle.item(i, at);
        at += words.len();
        if bundle.kind(i) != kind {
            continue;
        }
        let answers = item(ledger, kind, words)?;
        count += answers[0];
    }
    Ok(count)
}

// All items, by rising kind, and the three counts. What the ledger is after a refusal, nobody reads.
fn all_items(ledger: &mut Ledger, words: &[u64]) -> Said
    requires { Held ledger.old }
    ensures { AllItems words.now (contents ledger.old) result ledger.new }
{
    let bundle = Bundle::read(words)?;
    items(ledger, bundle, 1)?;
    let rebuilt = items(ledger, bundle, 2)?;
    let released = items(ledger, bundle, 3)?;
    let admitted = items(ledger, bundle, 4)?;
    items(ledger, bundle, 5)?;
    Ok([admitted, rebuilt, released])
}

// Does what a block brings, and answers how many admissions answered 1, how many entries were rebuilt and how many released. The items are
// done on a copy: where one is refused, the ledger was not touched.
pub fn bundle(ledger: &mut Ledger, words: &[u64]) -> Said
    requires { Held ledger.old }
    ensures { Meets (after_bundle words.now (contents ledger.old)) [] [] (saying result ledger.new) }
{
    let mut after = *ledger;
    let counts = all_items(&mut after, words)?;
    *ledger = after;
    Ok(counts)
}
