//! Bits in words of 64: one bit for each number.

ghost use Rattle.std.specs.Prelude.{◌≡◌, ◌≢◌, ◌↔◌, ℕ, ◌+◌, ◌*◌, ◌<◌, ◌≤◌, ◌||◌, ◌&&◌, not, true, false, length, IsTrue};
ghost use Rattle.evac_model.specs.Numbers.{numbers_where, is_between};
ghost use Rattle.block_map.specs.Bits.{has_bit, AreBits, AreAllSet, AreNoneSet};

/// Whether a bit is set.
#[tactic(auto, unfolding(crate::specs::Bits::has_bit))]
pub fn bit(words: &[u64], b: u32) -> bool
    requires { b < 64 * length words.now }
    ensures { result ≡ has_bit words.now b }
{
    (words[(b / 64) as usize] >> (b % 64)) & 1 == 1
}

// Sets a bit.
fn set_bit(words: &mut [u64], b: u32)
    requires { b < 64 * length words.old }
    ensures here { has_bit words.new b ≡ true }
    ensures others { (k : ℕ) → k ≢ b → has_bit words.new k ≡ has_bit words.old k }
{
    words[(b / 64) as usize] |= 1 << (b % 64);
}

// Clears a bit.
fn clear_bit(words: &mut [u64], b: u32)
    requires { b < 64 * length words.old }
    ensures here { has_bit words.new b ≡ false }
    ensures others { (k : ℕ) → k ≢ b → has_bit words.new k ≡ has_bit words.old k }
{
    words[(b / 64) as usize] &= !(1 << (b % 64));
}

/// Sets the bits from `first` on and below `last`, and says how many of them were clear.
pub fn set_bits(words: &mut [u64], first: u32, last: u32) -> u32
    requires order { first ≤ last }
    requires room { last ≤ 64 * length words.old }
    ensures bits { (k : ℕ) → has_bit words.new k ≡ (has_bit words.old k || is_between first last k) }
    ensures changed { (m : ℕ) → last ≤ m → length (numbers_where (has_bit words.new) m) ≡ length (numbers_where (has_bit words.old) m) + result }
{
    let mut changed = 0;
    for b in first..last {
        if !bit(words, b) {
            set_bit(words, b);
            changed += 1;
        }
    }
    changed
}

/// Clears the bits from `first` on and below `last`, and says how many of them were set.
pub fn clear_bits(words: &mut [u64], first: u32, last: u32) -> u32
    requires order { first ≤ last }
    requires room { last ≤ 64 * length words.old }
    ensures bits { (k : ℕ) → has_bit words.new k ≡ (has_bit words.old k && not (is_between first last k)) }
    ensures changed { (m : ℕ) → last ≤ m → length (numbers_where (has_bit words.new) m) + result ≡ length (numbers_where (has_bit words.old) m) }
{
    let mut changed = 0;
    for b in first..last {
        if bit(words, b) {
            clear_bit(words, b);
            changed += 1;
        }
    }
    changed
}

/// Whether each bit from `first` on and below `last` is as `on` says.
pub fn are_bits(words: &[u64], first: u32, last: u32, on: bool) -> bool
    requires { last ≤ 64 * length words.now }
    ensures { IsTrue result ↔ AreBits on first last words.now }
{
    for b in first..last {
        if bit(words, b) != on {
            return false;
        }
    }
    true
}

/// Whether the `n` bits from `first` on are below `managed` and set.
pub fn are_all_set(words: &[u64], managed: u32, first: u32, n: u32) -> bool
    requires some { 0 < n }
    requires room { managed ≤ 64 * length words.now }
    ensures { IsTrue result ↔ AreAllSet managed first n words.now }
{
    n <= managed && first <= managed - n && are_bits(words, first, first + n, true)
}

/// Whether none of the `n` bits from `first` on is below `managed` and set.
pub fn are_none_set(words: &[u64], managed: u32, first: u32, n: u32) -> bool
    requires { managed ≤ 64 * length words.now }
    ensures { IsTrue result ↔ AreNoneSet managed first n words.now }
{
    are_bits(words, first, first.saturating_add(n).min(managed), false)
}
