// Terminal and stamp: where a departed shard's chain was cut, and until when what it left is readable.
ghost use Rattle.std.specs.Prelude.{◌≡◌, not, ◌||◌, [], leb, length};
ghost use Rattle.lists.specs.Lists.{has};
ghost use Rattle.rules.specs.Plain.{shard_of};
ghost use Rattle.rules.specs.Calls.{after_terminal, after_stamp, stamp_refusal};
ghost use Rattle.store.specs.Departures.{Holds, on_file, room_for};
ghost use Rattle.ledger.specs.Contents.{Held, contents};
ghost use Rattle.ledger.specs.Meets.{Meets, saying};
ghost use Rattle.types.specs.Refusals.{refused_in};
ghost use Rattle.calls.specs.Terminals.{is_until, words_refusal, stamp_in, filed_with};

use ledger::{Ledger, Said};
use store::departures::Departures;
use types::refusal::Refusal;
use types::{Shard, Time, is_shard, is_time};

// Whether until is a time, where it is read at all. The pair is as it comes in words, and an option from `stamp_in` on.
fn is_until(stamped: u64, until: Time) -> bool
    ensures { result ≡ is_until stamped until.0 }
{
    stamped == 0 || is_time(until.0)
}

// The words of a terminal, by the table.
#[tactic(auto, unfolding(crate::specs::Terminals::words_refusal))]
fn check_terminal(shard: Shard, cut: Time, stamped: u64, until: Time) -> Result<(), Refusal>
    ensures { refused_in result ≡ words_refusal shard.0 cut.0 stamped until.0 }
{
    if 1 < stamped {
        return Err(Refusal::Malformed);
    }
    if !is_time(cut.0) {
        return Err(Refusal::NoTime);
    }
    if !is_until(stamped, until) {
        return Err(Refusal::NoTime);
    }
    if !is_shard(shard.0) {
        return Err(Refusal::NoShard);
    }
    Ok(())
}

// Whether the shard is on file already or there is room for it.
fn has_room(departures: &Departures, shard: Shard) -> bool
    ensures { result ≡ has shard_of shard.0 (on_file departures.now) || not (leb 32 (length (on_file departures.now))) }
{
    departures.find(shard).is_some() || departures.front.len < 32
}

// The stamp that comes with a terminal, whose words are read as the paper has them: a word that says whether, and a time.
pub fn stamp_in(stamped: u64, until: Time) -> Option<Time>
    ensures { result ≡ stamp_in stamped until }
{
    if stamped == 0 { None } else { Some(until) }
}

// The shard's departure put on file, stamped or not yet.
fn file(departures: &mut Departures, shard: Shard, cut: Time, stamp: Option<Time>)
    requires { room_for departures.old shard.0 cut.0 }
    ensures { Holds (filed_with shard.0 cut.0 stamp (on_file departures.old)) departures.new }
{
    departures.depart(shard, cut);
    if let Some(until) = stamp {
        departures.stamp(shard, until);
    }
}

// The shard departed at its cut, stamped or not yet: the first cut holds, and so does the first stamp.
pub fn record_terminal(
    ledger: &mut Ledger,
    shard: Shard,
    cut: Time,
    stamped: u64,
    until: Time,
) -> Said
    requires { Held ledger.old }
    ensures { Meets (after_terminal shard.0 cut.0 stamped until.0 (contents ledger.old)) [] [] (saying result ledger.new) }
{
    check_terminal(shard, cut, stamped, until)?;
    if !has_room(&ledger.departures, shard) {
        return Err(Refusal::DeparturesFull);
    }
    let stamp = stamp_in(stamped, until);
    file(&mut ledger.departures, shard, cut, stamp);
    Ok([0; 3])
}

// The words of a stamp, by the table.
fn check_stamp(shard: Shard, until: Time) -> Result<(), Refusal>
    ensures { refused_in result ≡ stamp_refusal shard.0 until.0 }
{
    if !is_time(until.0) {
        return Err(Refusal::NoTime);
    }
    let is_placed = is_shard(shard.0);
    if !is_placed {
        return Err(Refusal::NoShard);
    }
    Ok(())
}

// A departure on file stamped; on a shard that is not on file a stamp is nothing.
pub fn stamp_terminal(ledger: &mut Ledger, shard: Shard, until: Time) -> Said
    requires { Held ledger.old }
    ensures { Meets (after_stamp shard.0 until.0 (contents ledger.old)) [] [] (saying result ledger.new) }
{
    check_stamp(shard, until)?;
    ledger.departures.stamp(shard, until);
    Ok([0; 3])
}
