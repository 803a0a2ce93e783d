// A ledger that comes in as the bytes of its snapshot.
ghost use Rattle.std.specs.Prelude.{◌≡◌, []};
ghost use Rattle.ledger.specs.Meets.{Meets};
ghost use Rattle.hosts.specs.Hosts.{restoring_bytes, words_read};

use ledger::Done;
use snapshots::restore::restore;
use snapshots::write::SNAPSHOT_ROOM;
use word_bytes::read_words;

// How many words are read of so many bytes. None where they are no whole words or too many, and no words are no snapshot either.
fn words_read(len: usize) -> usize
    ensures { result ≡ words_read len }
{
    let n = len / 8;
    if len % 8 == 0 && n <= SNAPSHOT_ROOM {
        n
    } else {
        0
    }
}

pub fn restored(snapshot: &[u8]) -> Done
    ensures { Meets (restoring_bytes snapshot.now) [] [] result }
{
    let mut words = [0; SNAPSHOT_ROOM];
    let n = words_read(snapshot.len());
    read_words(&snapshot[..8 * n], &mut words[..n]);
    restore(&words[..n])
}
