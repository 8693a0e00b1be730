//! Keys drawn from a seed.
ghost use Rattle.std.specs.Prelude.{◌≡◌, ◌+◌, ◌*◌, ◌<◌, ◌≤◌, length, All, IfSome, IfNone, true};
ghost use Rattle.bridge_config.specs.Limits.{are_distinct};
ghost use Rattle.evening_draft.specs.Keys.{HasNineDigits, nine_digits, gives_key, with_word, drawn, key_count, evening_keys};

use arrayvec::ArrayVec;
use rand_chacha::ChaCha20Rng;
use rand_core::SeedableRng;
use rand_core::utils::NextWord;

/// The most keys: the director's, and two of each of 24 pairs.
pub const MOST_KEYS: usize = 49;

/// How many words of the seed's stream are drawn. Of 200 words some 168 give a key, and no evening needs more than 49.
const WORDS: usize = 200;

/// The number of nine digits that a word gives.
fn nine_digits(word: u32) -> u32
    ensures { result ≡ nine_digits word }
{
    100_000_000 + word % 900_000_000
}

/// Whether the word gives a key that is not there yet.
fn gives_key(keys: &[u32], word: u32) -> bool
    ensures { result ≡ gives_key keys.now word }
{
    word < 3_600_000_000 && !keys.contains(&nine_digits(word))
}

/// Adds the key that a word gives, where it gives a new one.
fn push_key(word: u32, keys: &mut ArrayVec<u32, WORDS>)
    requires { length keys.old.items < WORDS }
    ensures keys { keys.new.items ≡ with_word keys.old.items word }
    ensures count { length keys.new.items ≤ length keys.old.items + 1 }
{
    if gives_key(keys.as_slice(), word) {
        keys.push(nine_digits(word));
    }
}

/// The different keys that the seed's stream gives, in order.
fn draw(seed: &[u8; 32]) -> ArrayVec<u32, WORDS>
    ensures { result.items ≡ drawn seed.now WORDS }
{
    let mut generator = ChaCha20Rng::from_seed(*seed);
    let mut keys = ArrayVec::new();
    for _index in 0..WORDS {
        push_key(generator.next_word(), &mut keys);
    }
    keys
}

/// The keys of an evening of so many pairs, drawn from the seed by ChaCha20: the director's, and then the players', in
/// order. They are distinct, and have nine digits. `None` where the seed gives too few, which no seed that was drawn by
/// chance does.
pub fn draw_keys(seed: &[u8; 32], pairs: u8) -> Option<ArrayVec<u32, MOST_KEYS>>
    requires { pairs ≤ 24 }
    ensures keys { IfSome result (λ keys. keys.items ≡ evening_keys seed.now pairs) }
    ensures count { IfSome result (λ keys. length keys.items ≡ key_count pairs) }
    ensures distinct { IfSome result (λ keys. are_distinct keys.items ≡ true) }
    ensures nine_digits { IfSome result (λ keys. All HasNineDigits keys.items) }
    ensures none { IfNone result (length (drawn seed.now WORDS) < key_count pairs) }
{
    let drawn = draw(seed);
    let count = 2 * usize::from(pairs) + 1;
    if drawn.len() < count {
        return None;
    }
    let mut keys = ArrayVec::new();
    keys.try_extend_from_slice(&drawn.as_slice()[..count])
        .unwrap();
    Some(keys)
}
