// A set of numbers below 32,768 as bits in one list of 521 words, with two levels of summary: the lowest member is found in three
// words. Number r is bit r modulo 64 of word r divided by 64. Bit b of word 512 + j is set exactly if word 64 j + b is not 0, and bit j of
// word 520, the top one, exactly if word 512 + j is not 0.
//
// specs/, by file:
//
//   Flags     the list of a set; the set with one number put in or taken out
//   Firsts    the first number that passes a test
//   Keeping   the list after a number is put
//   Lowest    the lowest member found

#![tactic(auto)]

ghost use Rattle.std.specs.Prelude.{◌≡◌, Bool, false, not, ℕ, ◌+◌, ◌/◌, ◌<◌, ◌≤◌, length, get_or};
ghost use Rattle.std.specs.Int.Count.{count_trailing_zeros};
ghost use Rattle.meaning.specs.Lists.{position, numbers};
ghost use Rattle.ready_set.specs.Flags.{Kept, put, flipped, turns, members};

// The numbers that may be members, the words of their bits, the words above those, where the top word stands, and all words.
pub const MEMBERS: usize = 32768;

const LOW: usize = MEMBERS / 64;

const MIDDLE: usize = LOW / 64;

const TOP: usize = LOW + MIDDLE;

pub const FLAGS: usize = TOP + 1;

// A set of numbers below MEMBERS, with two levels of summary.
#[derive(Clone, Copy)]
pub struct ReadySet {
    pub words: [u64; FLAGS],
}

impl ReadySet {
    // No number is in it.
    pub fn new() -> ReadySet
        ensures { Kept (λ r. false) result.words }
    {
        ReadySet { words: [0; FLAGS] }
    }

    // Whether number r is in the set.
    fn has(&self, r: usize) -> bool
        requires { r < members }
        ensures { (f : ℕ → Bool) → Kept f self.now.words → result ≡ f r }
    {
        (self.words[r / 64] >> (r % 64)) % 2 == 1
    }

    // The bit of number r in the words from `from` on is turned over; whether its word was 0 or has become 0.
    fn flip(&mut self, from: usize, r: usize) -> bool
        requires { from + r / 64 < length self.old.words }
        ensures { (self.new.words ≡ flipped self.old.words from r) × (result ≡ turns self.old.words from r) }
    {
        let k = from + r / 64;
        let old = self.words[k];
        let new = old ^ (1u64 << (r % 64));
        self.words[k] = new;
        old == 0 || new == 0
    }

    // Number r is put into the set if it was not in it, and taken out of it otherwise.
    fn turn(&mut self, r: usize)
        requires { r < members }
        ensures { (f : ℕ → Bool) → Kept f self.old.words → Kept (put f r (not (f r))) self.new.words }
    {
        if self.flip(0, r) {
            let k = r / 64;
            if self.flip(LOW, k) {
                self.flip(TOP, k / 64);
            }
        }
    }

    // Number r is put into the set if b is true, and taken out of it otherwise.
    pub fn put(&mut self, r: usize, b: bool)
        requires { r < members }
        ensures { (f : ℕ → Bool) → Kept f self.old.words → Kept (put f r b) self.new.words }
    {
        if self.has(r) != b {
            self.turn(r);
        }
    }

    // The lowest set bit of word k, 64 if it is 0.
    fn lowest_bit(&self, k: usize) -> usize
        requires { k < length self.now.words }
        ensures { (result ≡ count_trailing_zeros 64 (get_or self.now.words k 0)) × (result ≤ 64) }
    {
        self.words[k].trailing_zeros() as usize
    }

    // The lowest number in the set, 32,768 if it is empty.
    pub fn lowest(&self) -> usize
        ensures { (f : ℕ → Bool) → Kept f self.now.words → result ≡ position f (numbers members) }
    {
        let j = self.lowest_bit(TOP);
        if MIDDLE <= j {
            return MEMBERS;
        }
        let k = 64 * j + self.lowest_bit(LOW + j);
        64 * k + self.lowest_bit(k)
    }
}
