// The lists of shards and routes: unstamped departures, reach, claimants, counterparts, a tree's leaves, each one word an item; and the counts
// by shard, two words an item. Shards are gathered in a set, which is then written out.
#![tactic(auto)]

pub mod set;

ghost use Rattle.std.specs.Fn.{FnReturns, FnReturnsAt};
ghost use Rattle.std.specs.Prelude.{◌≡◌, ◌≤◌, length};
ghost use Rattle.lists.specs.Lists.{keep};
ghost use Rattle.lists.specs.Front.{held};
ghost use Rattle.rules.specs.Plain.{is_remote};
ghost use Rattle.rules.specs.Readings as rules;
ghost use Rattle.rules.specs.Readings.{read, claimants_of};
ghost use Rattle.entry.specs.Entry.{plain_entry};
ghost use Rattle.store.specs.Departures as departures;
ghost use Rattle.store.specs.Departures.{plain_departure};
ghost use Rattle.ledger.specs.Contents.{contents, Held};
ghost use Rattle.readings.specs.Reads.{Reads};
ghost use Rattle.shard_lists.specs.Sets.{front, Holds, Gathers, is_over_some, Tries, LiesBeyond, ListsBeyond};
ghost use Rattle.types.specs.Transactions.{number_of};

use entry::{Entry, is_issue};
use ledger::Ledger;
use lists::front::Front;
use lists::slices::part;
use readings::reply::list;
use set::Set;
use store::departures::{Departure, Departures};
use trees::Halves;
use types::refusal::Refusal;
use types::{RecordKey, Shard, Time, Transaction, shard_for_route};

// The shards of the departures that pass. They rise as the departures do, so that each is put behind the last.
fn shards_of<F: Fn(&Departure) -> bool>(on_file: Departures, passes: F) -> Set
    requires { (d : _) → F.pre passes d }
    ensures gathered { Gathers (FnReturnsAt F.Fn passes) on_file result }
    ensures few { result.shards.len ≤ 32 }
{
    let mut shards = Set::new();
    let all = on_file.front.as_slice();
    for d in all {
        if passes(d) {
            shards.push(d.shard);
        }
    }
    shards
}

// The shards whose departures have no stamp.
pub fn unstamped_departures(ledger: &Ledger, lent: &mut [u64]) -> Result<u64, Refusal>
    requires { Held ledger.now }
    ensures { Reads (read (rules.list_unstamped (length lent.old)) (contents ledger.now)) lent.old lent.new result }
{
    let shards = shards_of(ledger.departures, |d| d.until.is_none());
    shards.list(lent)
}

// Each shard with what its records rebuilt.
pub fn rebuilt_by_shard(ledger: &Ledger, lent: &mut [u64]) -> Result<u64, Refusal>
    requires { Held ledger.now }
    ensures { Reads (read (rules.rebuilt_by_shard (length lent.old)) (contents ledger.now)) lent.old lent.new result }
{
    let pairs = ledger.counts.pairs();
    list(pairs.as_slice(), ledger.counts.front.len, lent)
}

pub fn reach(ledger: &Ledger, tx: Transaction, lent: &mut [u64]) -> Result<u64, Refusal>
    requires { Held ledger.now }
    ensures { Reads (read (rules.reach (number_of tx) (length lent.old)) (contents ledger.now)) lent.old lent.new result }
{
    let Some(slot) = ledger.roster.slot_of(tx) else {
        return Ok(0);
    };
    let e = ledger.entries[slot];
    let n = e.routes_len as usize;
    list(&e.routes[..n], n, lent)
}

// The destinations of the entry's edges from local with this key.
fn destinations(e: Entry, local: Shard, r: RecordKey) -> Set
    ensures { Holds (claimants_of local.0 r.0 (plain_entry e)) result }
{
    let mut shards = Set::new();
    let mut start = 0;
    // By place: sizes, ends and ids lie side by side.
    for i in 0..e.edges_len as usize {
        let size = e.sizes[i] as usize;
        if is_issue(Shard(e.froms[i]), e.ids[i], local, r) {
            shards.include_all(part(&e.to, start, size));
        }
        start += size;
    }
    shards
}

pub fn claimants(
    ledger: &Ledger,
    tx: Transaction,
    r: RecordKey,
    lent: &mut [u64],
) -> Result<u64, Refusal>
    requires { Held ledger.now }
    ensures { Reads (read (rules.list_claimants (number_of tx) r.0 (length lent.old)) (contents ledger.now)) lent.old lent.new result }
{
    let Some(slot) = ledger.roster.slot_of(tx) else {
        return Ok(0);
    };
    let shards = destinations(ledger.entries[slot], ledger.local, r);
    shards.list(lent)
}

// The routes that local does not own.
fn remote(routes: &[u64], local: Shard) -> Front<u64, 8>
    requires { length routes.now ≤ 8 }
    ensures { held result ≡ keep (is_remote local.0) routes.now }
{
    let mut far = Front::new(0);
    for route in routes {
        if !local.owns(*route) {
            far.push(*route);
        }
    }
    far
}

// Whether a departure is over one of the routes of an entry with this anchor.
fn is_over(d: Departure, anchor: Time, far: &[u64]) -> bool
    ensures { result ≡ is_over_some anchor.0 far.now (plain_departure d) }
{
    far.iter().any(|route| d.is_over(*route, anchor))
}

// The trie's shards of the routes put into a set.
fn put_trie<F: Fn(u64) -> Shard>(shards: &mut Set, far: &Front<u64, 8>, shard_for: F)
    requires few { shards.old.shards.len ≤ 32 }
    requires callable { (route : _) → F.pre shard_for route }
    ensures { Tries (λ route. FnReturns F.Fn shard_for (route, tt)) (held far.now) (front shards.old) shards.new }
{
    for route in far.as_slice() {
        shards.include(shard_for(*route));
    }
}

// For the remote routes the trie's shards, and those whose departure is over one. Departures are gone through once: each is held against
// the routes, not each route against them.
fn beyond<F: Fn(u64) -> Shard>(e: Entry, on_file: Departures, local: Shard, shard_for: F) -> Set
    requires { (route : _) → F.pre shard_for route }
    ensures { LiesBeyond (λ route. FnReturns F.Fn shard_for (route, tt)) local.0 (departures.on_file on_file) (plain_entry e) result }
{
    let far = remote(&e.routes[..e.routes_len as usize], local);
    let mut shards = shards_of(on_file, |d| is_over(*d, e.anchor, far.as_slice()));
    put_trie(&mut shards, &far, shard_for);
    shards
}

// These of the transaction's entry written out; a transaction that is not owed has none.
fn list_beyond<F: Fn(u64) -> Shard>(
    ledger: &Ledger,
    tx: Transaction,
    lent: &mut [u64],
    shard_for: F,
) -> Result<u64, Refusal>
    requires held { Held ledger.now }
    requires callable { (route : _) → F.pre shard_for route }
    ensures { ListsBeyond (λ route. FnReturns F.Fn shard_for (route, tt)) (number_of tx) (contents ledger.now) lent.old lent.new result }
{
    let Some(slot) = ledger.roster.slot_of(tx) else {
        return Ok(0);
    };
    let shards = beyond(
        ledger.entries[slot],
        ledger.departures,
        ledger.local,
        shard_for,
    );
    shards.list(lent)
}

#[tactic(auto, using(crate::proofs::Listed::too_deep))]
pub fn counterparts(
    ledger: &Ledger,
    tx: Transaction,
    depth: u64,
    lent: &mut [u64],
) -> Result<u64, Refusal>
    requires { Held ledger.now }
    ensures { Reads (read (rules.list_counterparts (number_of tx) depth (length lent.old)) (contents ledger.now)) lent.old lent.new result }
{
    if depth > 32 {
        return Err(Refusal::Malformed);
    }
    list_beyond(ledger, tx, lent, |route| {
        shard_for_route(depth as u32, route)
    })
}

// The counterparts where the trie is the tree of these marks.
pub fn counterparts_by_tree(
    ledger: &Ledger,
    tx: Transaction,
    marks: &[u64],
    lent: &mut [u64],
) -> Result<u64, Refusal>
    requires { Held ledger.now }
    ensures { Reads (read (rules.list_counterparts_by_tree (number_of tx) marks.now (length lent.old)) (contents ledger.now)) lent.old lent.new result }
{
    let mut trie = Halves::new();
    trie.read(marks)?;
    list_beyond(ledger, tx, lent, |route| trie.leaf_of(marks, route))
}

// The leaves of the tree of these marks, from left to right. It asks nothing of the ledger.
pub fn leaves(ledger: &Ledger, marks: &[u64], lent: &mut [u64]) -> Result<u64, Refusal>
    requires { Held ledger.now }
    ensures { Reads (read (rules.list_leaves marks.now (length lent.old)) (contents ledger.now)) lent.old lent.new result }
{
    let mut tree = Halves::new();
    tree.read(marks)?;
    let shards = tree.leaves(marks);
    list(shards.as_slice(), shards.len, lent)
}
