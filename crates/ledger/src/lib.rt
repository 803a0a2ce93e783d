// The ledger: which transactions are owed an ending. Entries lie in slots and never move; the roster says in which slot each
// transaction's entry lies, the issuer index which transactions issued a record, the departures which shards have gone, and the counts how
// many entries each shard's records rebuilt.
#![tactic(auto)]

ghost use Rattle.std.specs.Prelude.{◌≡◌, length};

use entry::Entry;
use store::counts::Counts;
use store::departures::Departures;
use store::issuers::Issuers;
use store::roster::Roster;
use types::Shard;
use types::refusal::Refusal;

// Who takes an entry in or lets one go writes the roster, the index and the slot in place: a method would say as much as these lines do.
#[derive(Clone, Copy)]
pub struct Ledger {
    pub local: Shard,
    pub validity: u64,
    pub core_span: u64,
    pub leg_span: u64,
    pub roster: Roster,
    pub entries: [Entry; 48],
    pub issuers: Issuers,
    pub departures: Departures,
    pub counts: Counts,
    pub ghost slots: { length entries ≡ 48 },
}

// What a changing call says: three answers (0 where it has fewer), or why it is turned away. The call is lent the ledger and changes it in
// place, so that no copy of it is made.
pub type Said = Result<[u64; 3], Refusal>;

// What a making says, and the ledger that it makes; and, where a contract speaks of a call, what it says and the ledger after it.
#[derive(Clone, Copy)]
pub struct Done {
    pub said: Said,
    pub ledger: Ledger,
}
