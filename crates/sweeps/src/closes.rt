// Closes: the entries whose issued records are all settled or returned are let go, and listed with their decisions.
ghost use Rattle.std.specs.Prelude.{◌≤◌, ◌≡◌, cond, length};
ghost use Rattle.std.proofs.lemmas.List.Edits.{sets};
ghost use Rattle.rules.specs.Calls.{after_closes};
ghost use Rattle.ledger.specs.Contents.{Held, contents};
ghost use Rattle.ledger.specs.Meets.{Meets, saying};
ghost use Rattle.sweeps.specs.Closing.{listed, Judges};

use ledger::{Ledger, Said};
use store::leaving::without_dropped;
use types::Transaction;
use types::refusal::Refusal;
use types::widths::CLOSE_WORDS;

// By place in the roster who stays, as flags in fixed memory since there is no heap; and how many do not.
#[derive(Clone, Copy)]
pub struct Closing {
    pub stay: [bool; 48],
    pub count: usize,
}

// Aborted if any mark was a return, else Accept: the word that the list has.
fn decision(returned: bool) -> u64
    ensures { result ≡ cond returned 2 1 }
{
    if returned { 2 } else { 1 }
}

impl Closing {
    // Each entry judged.
    fn of(ledger: &Ledger) -> Closing
        requires { Held ledger.now }
        ensures { Judges ledger.now result }
    {
        let mut c = Closing {
            stay: [false; 48],
            count: 0,
        };
        // By place: an entry's flag stands at its place in the roster.
        for i in 0..ledger.roster.len {
            let slot = ledger.roster.slots[i];
            let closed = ledger.entries[slot].is_closed(ledger.local);
            c.stay[i] = !closed;
            c.count += usize::from(closed);
        }
        c
    }
}

// Transaction and decision of each whose flag is down, to the front of the lent list.
fn list_closed(ledger: &Ledger, stay: &[bool; 48], lent: &mut [u64])
    requires held { Held ledger.now }
    requires room { length (listed ledger.now stay.now) ≤ length lent.old }
    ensures { lent.new ≡ sets lent.old 0 (listed ledger.now stay.now) }
{
    let mut at = 0;
    for i in 0..ledger.roster.len {
        if !stay[i] {
            let slot = ledger.roster.slots[i];
            let row = [decision(ledger.entries[slot].returned)];
            Transaction(ledger.roster.keys[i]).put_item(&row, lent, at);
            at += CLOSE_WORDS;
        }
    }
}

// Lets go and lists those that close, and answers how many.
pub fn closes(ledger: &mut Ledger, lent: &mut [u64]) -> Said
    requires { Held ledger.old }
    ensures { Meets (after_closes (length lent.old) (contents ledger.old)) lent.old lent.new (saying result ledger.new) }
{
    let c = Closing::of(ledger);
    if lent.len() < CLOSE_WORDS * c.count {
        return Err(Refusal::ListShort);
    }
    list_closed(ledger, &c.stay, lent);
    let roster = ledger.roster;
    ledger.roster = roster.retain(c.stay);
    ledger.issuers = without_dropped(ledger.issuers, roster, c.stay);
    Ok([c.count as u64, 0, 0])
}
