// Why a call is turned away: the lines of the paper's table, each with its number there.
ghost use Rattle.std.specs.Prelude.{◌≡◌};
ghost use Rattle.types.specs.Refusals.{refusal_number};

#[derive(Clone, Copy, PartialEq, Eq)]
pub enum Refusal {
    // Making: local is no shard, or a span is none.
    NoLocal = 1,
    NoSpan = 2,
    // Reading: no time, no shard, or words and codes of no allowed form.
    NoTime = 3,
    NoShard = 4,
    Malformed = 5,
    // Taking in: no entry, absence or departure is free.
    EntriesFull = 6,
    AbsencesFull = 7,
    DeparturesFull = 8,
    // Writing: the lent list is too short.
    ListShort = 9,
    // Reading a bundle: an item's kind is none of the five, or its words are no such number of items.
    UnknownKind = 10,
    NoBundle = 11,
    // Reading a snapshot: words of no snapshot's form, or words that are written of no ledger.
    NoSnapshot = 12,
    NeverWritten = 13,
    // Rebuilding: the shard has no count, and none is free.
    CountsFull = 14,
    // Reading a tree: its marks end early, go on or hold another value; they are too many, or a split lies too deep.
    NoTree = 15,
    TreeTooLarge = 16,
}

impl Refusal {
    // The word that an answer has.
    pub fn number(self) -> u64
        ensures { result ≡ refusal_number self }
    {
        self as u64
    }
}
