// How the answers of the calls lie in words: the number by which a call declines, 0 if it does not, and then its values.
//
// specs/, by file, all by `Answers` of meaning:
//
//   Words     what the words of an answer are
//   Kept      what an answer leaves in lent words

#![tactic(auto)]

ghost use Rattle.std.specs.Prelude.{◌≡◌, List, [], ◌∷◌, ℕ, set};
ghost use Rattle.refusals.specs.Numbers.{refusal_number};
ghost use Rattle.answer_words.specs.Words.{words_of, left, figure_words, ran_words, ready_words, made_words, noted};

use meaning::{Divisors, Figures, Ran, Readiness};
use refusals::Refusal;

// An answer in words: its number, and its first two values, 0 where there are none.
#[derive(Clone, Copy)]
pub struct Words {
    pub number: u32,
    pub first: u32,
    pub second: u32,
}

// What a call answers where it does not decline, in N words.
pub trait Values<const N: usize> {
    ghost words: { Self → List ℕ };

    fn words(&self) -> [u32; N]
        ensures { result ≡ words self.now };
}

// Of Accept: the six figures and the divisors of place and of the six streams.
impl Values<13> for (Figures, Divisors) {
    ghost words = { figure_words };

    fn words(&self) -> [u32; 13] {
        let (f, g) = *self;
        [
            f.processes,
            f.instances,
            f.elements,
            f.pipes,
            f.words,
            f.steps,
            g.place,
            g.stream0,
            g.stream1,
            g.stream2,
            g.stream3,
            g.stream4,
            g.stream5,
        ]
    }
}

// Of Run: the steps done, and 1 if any is ready, 0 if none.
impl Values<2> for Ran {
    ghost words = { ran_words };

    fn words(&self) -> [u32; 2] {
        [self.steps, u32::from(self.ready)]
    }
}

// Of Ready: how many processes can take, fire or give, and the lowest.
impl Values<2> for Readiness {
    ghost words = { ready_words };

    fn words(&self) -> [u32; 2] {
        [self.count, self.lowest]
    }
}

// Of Make: the number of bytes.
impl Values<1> for u32 {
    ghost words = { made_words };

    fn words(&self) -> [u32; 1] {
        [*self]
    }
}

// The number by which a call declines, 0 if it does not.
pub fn number_of<T>(answer: &Result<T, Refusal>) -> u32
    ensures { result ≡ refusal_number answer.now }
{
    match answer {
        Ok(_) => 0,
        Err(refusal) => refusal.number(),
    }
}

// The same, and the values in lent words; these stay where the call declines.
pub fn put_values<T: Values<N>, const N: usize>(
    answer: &Result<T, Refusal>,
    words: &mut [u32; N],
) -> u32
    ensures { (result ≡ refusal_number answer.now) × (words.new ≡ left T.words answer.now words.old) }
{
    if let Ok(values) = answer {
        *words = values.words();
    }
    number_of(answer)
}

// The words of an answer with no values, or whose values lie elsewhere.
pub fn of_answer<T>(answer: &Result<T, Refusal>) -> Words
    ensures { result ≡ words_of (refusal_number answer.now) [] }
{
    Words {
        number: number_of(answer),
        first: 0,
        second: 0,
    }
}

// Those of an answer with two.
pub fn of_values<T: Values<2>>(answer: &Result<T, Refusal>) -> Words
    ensures { result ≡ words_of (refusal_number answer.now) (left T.words answer.now (0 ∷ 0 ∷ [])) }
{
    let mut values = [0; 2];
    let number = put_values(answer, &mut values);
    Words {
        number,
        first: values[0],
        second: values[1],
    }
}

// A word goes into a list, if it has that place.
fn put(list: &mut [u32], at: usize, word: u32)
    ensures { list.new ≡ set list.old at word }
{
    if at < list.len() {
        list[at] = word;
    }
}

// An answer goes into a list as its k-th, as far as there is room.
pub fn note(list: &mut [u32], k: usize, words: Words)
    ensures { list.new ≡ noted list.old k words }
{
    if k < list.len() {
        put(list, 3 * k, words.number);
        put(list, 3 * k + 1, words.first);
        put(list, 3 * k + 2, words.second);
    }
}
