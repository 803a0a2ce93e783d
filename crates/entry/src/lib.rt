// An entry: one transaction that is owed an ending (the Rust's `Owed`), and what each kind of call asks and changes of it.
#![tactic(auto)]

ghost use Rattle.std.specs.Prelude.{◌≡◌, ◌<◌, MatchResult, ◌&&◌, ◌||◌, true, ◌≤◌, eqb, leb, ltb, length, take};
ghost use Rattle.lists.specs.Lists.{all, has, include, self as itself, filled};
ghost use Rattle.rules.specs.Numbers.{record_key};

use lists::fronts::insert_at;
use lists::slices::contains;
use lists::sorted::{include, rank};
use types::{RecordKey, Shard, Time, Transaction};

// Numbered as the paper numbers them.
#[derive(Clone, Copy, PartialEq, Eq)]
pub enum Part {
    Whole = 0,
    Leg = 1,
    Core = 2,
    Remainder = 3,
}

// How far this shard has spoken for an entry, in rising order, by its code.
#[derive(Clone, Copy, PartialEq, Eq, PartialOrd, Ord)]
pub enum Certificate {
    Missing = 0,
    ByAbandonment = 1,
    ByExecution = 2,
}

#[derive(Clone, Copy, PartialEq, Eq)]
pub struct UnknownPart;

#[derive(Clone, Copy, PartialEq, Eq)]
pub struct UnknownCertificate;

// A cell read absent on a shard: by shard and then key.
#[derive(Clone, Copy, PartialEq, Eq, PartialOrd, Ord)]
pub struct Absence {
    pub shard: Shard,
    pub key: u64,
}

// departed_by is shard 0 while no record names the entry, as in the plain ledger; returned is a plain fact with no value beside it. An edge's id, from-shard, kind (1 owed) and number of
// destinations stand at its place in four arrays; the destinations lie joined in a fifth. Absences rise by shard and then key, marks rise.
// There is no heap: each list stands in an array of fixed size with its length beside it, as the plain ledger's words lie.
#[derive(Clone, Copy)]
pub struct Entry {
    pub tx: Transaction,
    pub at: Time,
    pub end: Time,
    pub anchor: Time,
    pub charge: u64,
    pub departed_by: Shard,
    pub part: Part,
    pub certified: Certificate,
    pub returned: bool,
    pub routes_len: u8,
    pub core_len: u8,
    pub edges_len: u8,
    pub absences_len: u8,
    pub marks_len: u8,
    pub kinds: [u8; 8],
    pub sizes: [u8; 8],
    pub routes: [u64; 8],
    pub core: [u64; 8],
    pub ids: [u64; 8],
    pub froms: [u64; 8],
    pub to: [u64; 32],
    pub absences: [Absence; 8],
    pub marks: [u64; 8],
    pub ghost counts: { (routes_len ≤ 8) × (core_len ≤ 8) × (edges_len ≤ 8) × (absences_len ≤ 8) × (marks_len ≤ 8) },
    pub ghost few: { all (λ n. leb n 4) (take edges_len sizes) ≡ true },
    pub ghost words: { (length routes ≡ 8) × (length core ≡ 8) × (length ids ≡ 8) × (length froms ≡ 8) × (length to ≡ 32) × (length marks ≡ 8) },
    pub ghost others: { (length kinds ≡ 8) × (length sizes ≡ 8) × (length absences ≡ 8) },
}

// Whether an edge from this shard has this id's record key. This and the like below are a line each over a derived operator or a cast, whose
// contract says the rule by its name.
pub fn is_issue(from: Shard, id: u64, local: Shard, r: RecordKey) -> bool
    ensures { result ≡ eqb from.0 local.0 && eqb (record_key id) r.0 }
{
    from == local && types::record_key(id) == r
}

impl Absence {
    ghost use Rattle.rules.specs.Plain.{absence_key};
    ghost use Rattle.entry.specs.Entry.{plain_absence, below};

    // As the joined keys go, of keys that are words.
    fn is(self, x: Absence) -> bool
        ensures { result ≡ eqb (absence_key (plain_absence self)) (absence_key (plain_absence x)) }
    {
        self == x
    }

    pub fn is_below(self, x: Absence) -> bool
        ensures { result ≡ below (plain_absence x) (plain_absence self) }
    {
        self < x
    }
}

impl Part {
    ghost use Rattle.rules.specs.Plain.{part_number, is_core, is_leg, is_settling};
    ghost use Rattle.entry.specs.Entry.{plain_part};

    pub fn number(self) -> u64
        ensures { result ≡ part_number (plain_part self) }
    {
        self as u64
    }

    pub fn is_core(self) -> bool
        ensures { result ≡ is_core (plain_part self) }
    {
        self == Part::Core
    }

    pub fn is_leg(self) -> bool
        ensures { result ≡ is_leg (plain_part self) }
    {
        self == Part::Leg
    }

    // Held for the settlement of what it issued: a leg or a remainder.
    pub fn is_settling(self) -> bool
        ensures { result ≡ is_settling (plain_part self) }
    {
        matches!(self, Part::Leg | Part::Remainder)
    }
}

impl Certificate {
    ghost use Rattle.entry.specs.Entry.{certificate_number};

    pub fn number(self) -> u64
        ensures { result ≡ certificate_number self }
    {
        self as u64
    }
}

// By the number that comes in words.
impl TryFrom<u64> for Part {
    ghost use Rattle.rules.specs.Plain.{part_number};
    ghost use Rattle.entry.specs.Entry.{plain_part};

    type Error = UnknownPart;

    fn try_from(number: u64) -> Result<Part, UnknownPart>
        ensures { MatchResult result (λ p. part_number (plain_part p) ≡ number) (λ _. 3 < number) }
    {
        match number {
            0 => Ok(Part::Whole),
            1 => Ok(Part::Leg),
            2 => Ok(Part::Core),
            3 => Ok(Part::Remainder),
            _ => Err(UnknownPart),
        }
    }
}

// By the code that comes in words.
impl TryFrom<u64> for Certificate {
    ghost use Rattle.entry.specs.Entry.{certificate_number};

    type Error = UnknownCertificate;

    fn try_from(code: u64) -> Result<Certificate, UnknownCertificate>
        ensures { MatchResult result (λ c. certificate_number c ≡ code) (λ _. 2 < code) }
    {
        match code {
            0 => Ok(Certificate::Missing),
            1 => Ok(Certificate::ByAbandonment),
            2 => Ok(Certificate::ByExecution),
            _ => Err(UnknownCertificate),
        }
    }
}

#[tactic(auto, using(crate::proofs::Shape::fits_of), unfolding(crate::specs::Entry::plain_entry))]
impl Entry {
    ghost use Rattle.rules.specs.Plain.{is_core, is_covered, issued, issues, owes, remote, remainder};
    ghost use Rattle.rules.specs.Entries.{certified, with_part, with_marks, marked, read_absent, is_read, is_closed};
    ghost use Rattle.rules.specs.Good.{GoodEntry};
    ghost use Rattle.entry.specs.Entry.{plain_entry, plain_absence, certificate_number, absence, is_marked, FindsEdge, Blank, Means, RoomForAbsence, RoomForMark};

    // What a place of the arena holds before an entry is put there; a derived Default would not say what it is.
    pub fn blank() -> Entry
        ensures { Blank result }
    {
        Entry {
            tx: Transaction(0),
            at: Time(0),
            end: Time(0),
            anchor: Time(0),
            charge: 0,
            departed_by: Shard(0),
            part: Part::Whole,
            certified: Certificate::Missing,
            returned: false,
            routes_len: 0,
            core_len: 0,
            edges_len: 0,
            absences_len: 0,
            marks_len: 0,
            kinds: [0; 8],
            sizes: [0; 8],
            routes: [0; 8],
            core: [0; 8],
            ids: [0; 8],
            froms: [0; 8],
            to: [0; 32],
            absences: [Absence {
                shard: Shard(0),
                key: 0,
            }; 8],
            marks: [0; 8],
        }
    }

    // A certificate of at least this one. This and all that changes an entry is done where it lies, so that nothing is copied.
    pub fn certify(&mut self, certificate: Certificate)
        ensures { Means (certified (certificate_number certificate) (plain_entry self.old)) self.new }
    {
        self.certified = self.certified.max(certificate);
    }

    // A core that no certificate by execution speaks for.
    pub fn is_awaiting(&self) -> bool
        ensures { result ≡ (is_core (plain_entry self.now).part && ltb (plain_entry self.now).certificate 2) }
    {
        self.part.is_core() && self.certified < Certificate::ByExecution
    }

    // Whether a record names it or a cell was read absent for it.
    pub fn covered(&self) -> bool
        ensures { result ≡ is_covered (plain_entry self.now) }
    {
        self.departed_by.0 > 0 || self.absences_len > 0
    }

    // Whether some edge passes by its from-shard, id and kind.
    pub fn has_edge<F: Fn(Shard, u64, u8) -> bool>(&self, passes: F) -> bool
        requires { F.IsAlwaysCallable passes }
        ensures { FindsEdge (F.post passes) self.now result }
    {
        let n = self.edges_len as usize;
        self.froms[..n]
            .iter()
            .zip(&self.ids[..n])
            .zip(&self.kinds[..n])
            .any(|((from, id), kind)| passes(Shard(*from), *id, *kind))
    }

    // Whether an edge from local has this record key.
    pub fn issues(&self, local: Shard, r: RecordKey) -> bool
        ensures { result ≡ issues local.0 r.0 (plain_entry self.now).terms }
    {
        self.has_edge(|from, id, _| is_issue(from, id, local, r))
    }

    // Whether an edge from local is owed.
    pub fn owes(&self, local: Shard) -> bool
        ensures { result ≡ owes local.0 (plain_entry self.now).terms }
    {
        self.has_edge(|from, _, kind| from == local && kind == 1)
    }

    // Whether local does not own some route of it.
    pub fn reaches_beyond(&self, local: Shard) -> bool
        ensures { result ≡ filled (remote local.0 (plain_entry self.now).terms) }
    {
        let n = self.routes_len as usize;
        self.routes[..n].iter().any(|route| !local.owns(*route))
    }

    // Whether this cell was read absent for it.
    pub fn is_read(&self, shard: Shard, key: u64) -> bool
        ensures { result ≡ is_read (absence shard.0 key) (plain_entry self.now) }
    {
        let n = self.absences_len as usize;
        self.absences[..n]
            .iter()
            .any(|a| a.is(Absence { shard, key }))
    }

    // This cell read absent.
    pub fn read_absent(&mut self, shard: Shard, key: u64)
        requires { RoomForAbsence (absence shard.0 key) self.old }
        ensures { Means (read_absent (absence shard.0 key) (plain_entry self.old)) self.new }
    {
        if self.is_read(shard, key) {
            return;
        }
        let n = self.absences_len as usize;
        let x = Absence { shard, key };
        let k = rank(&self.absences[..n], |a| a.is_below(x));
        insert_at(&mut self.absences, n, k, x);
        self.absences_len += 1;
    }

    // Whether this record was settled or returned.
    pub fn has_mark(&self, r: RecordKey) -> bool
        ensures { result ≡ has itself r.0 (plain_entry self.now).marks }
    {
        let n = self.marks_len as usize;
        contains(&self.marks[..n], r.0)
    }

    // This record marked, whatever the entry's part.
    fn put_mark(&mut self, r: RecordKey, is_return: bool)
        requires { RoomForMark r.0 self.old }
        ensures { Means (with_marks (include itself r.0 (plain_entry self.old).marks) (self.old.returned || is_return) (plain_entry self.old)) self.new }
    {
        let n = self.marks_len as usize;
        self.marks_len = include(&mut self.marks, n, r.0) as u8;
        self.returned = self.returned || is_return;
    }

    // This record settled, or returned: only where the entry issued it and waits for its settlement.
    #[tactic(auto, using(crate::proofs::Shape::fits_of, crate::proofs::Put::issued_room), unfolding(crate::specs::Entry::plain_entry))]
    pub fn mark(&mut self, local: Shard, r: RecordKey, is_return: bool)
        requires { GoodEntry local.0 (plain_entry self.old) }
        ensures { Means (marked local.0 r.0 is_return (plain_entry self.old)) self.new }
    {
        if self.part.is_settling() && self.issues(local, r) {
            self.put_mark(r, is_return);
        }
    }

    // A remainder from now on, with nothing marked yet.
    pub fn resolve(&mut self)
        ensures { Means (with_part remainder (plain_entry self.old)) self.new }
    {
        self.part = Part::Remainder;
        self.returned = false;
        self.marks_len = 0; // what was marked before does not count
    }

    // Whether an edge starts from local.
    fn has_issued(&self, local: Shard) -> bool
        ensures { result ≡ filled (issued local.0 (plain_entry self.now).terms) }
    {
        self.has_edge(|from, _, _| from == local)
    }

    // Whether each record that it issued is marked.
    fn all_marked(&self, local: Shard) -> bool
        ensures { result ≡ all (is_marked self.now) (issued local.0 (plain_entry self.now).terms) }
    {
        !self.has_edge(|from, id, _| from == local && !self.has_mark(types::record_key(id)))
    }

    // Whether all that it issued, which is something, is settled or returned.
    pub fn is_closed(&self, local: Shard) -> bool
        ensures { result ≡ is_closed local.0 (plain_entry self.now) }
    {
        self.part.is_settling() && self.has_issued(local) && self.all_marked(local)
    }
}
