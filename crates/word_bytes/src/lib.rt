// Words as bytes, the least byte first, as a host hands them over. Nothing here knows what the words say.
#![tactic(auto)]

ghost use Rattle.std.specs.Prelude.{◌≡◌, ◌*◌, ◌≤◌, ◌++◌, length, drop};
ghost use Rattle.word_bytes.specs.Bytes.{bytes_of, words_in};

use byteorder::{ByteOrder, LittleEndian};

// The words that bytes are, read into a slice of just so many.
pub fn read_words(bytes: &[u8], words: &mut [u64])
    requires { length bytes.now ≡ 8 * length words.old }
    ensures { words.new ≡ words_in bytes.now }
{
    LittleEndian::read_u64_into(bytes, words);
}

// The bytes of words, put to the front of a slice; those beyond stay.
pub fn put_words(words: &[u64], out: &mut [u8])
    requires { 8 * length words.now ≤ length out.old }
    ensures { out.new ≡ bytes_of words.now ++ drop (8 * length words.now) out.old }
{
    LittleEndian::write_u64_into(words, &mut out[..8 * words.len()]);
}
