// A replay script on standard input: the number of bytes of a description; its bytes, padded to a whole word; the board word; the number of
// values; the values; then calls of four words. And the lengths at which a replay lends its lists.

#![tactic(auto)]

ghost use Rattle.std.specs.Prelude.{◌≡◌, ◌≤◌, ◌^◌, ◌<◌, length, take};

use std::io;
use std::io::Read;

// The bytes of a description that are kept, more than any good one has.
pub const KEPT: usize = 512;

// ---- reading

// A word, if there is one.
pub fn read_word(input: &mut impl Read) -> io::Result<Option<u32>> {
    let mut bytes = [0u8; 4];
    if reading::read_full(input, &mut bytes)? < 4 {
        return Ok(None);
    }
    Ok(Some(u32::from_le_bytes(bytes)))
}

// Reads so many bytes, which nobody looks at; whether they were there.
pub fn skipped(input: &mut impl Read, bytes: u64) -> io::Result<bool> {
    let found = io::copy(&mut input.take(bytes), &mut io::sink())?;
    Ok(found == bytes)
}

// Reads a description of so many bytes; whether it was there. Of one that is longer than any good one the first 512 bytes are kept.
pub fn read_description(input: &mut impl Read, length: u32, bytes: &mut [u8]) -> io::Result<bool> {
    let all = u64::from(length).next_multiple_of(4);
    let kept = all.min(KEPT as u64);
    let n = bytes.len().min(kept as usize);
    let found = reading::read_full(input, &mut bytes[..n])?;
    Ok(found == n && skipped(input, all - kept)?)
}

// Reads so many values; whether they were there. Of more than there is space for the first are kept.
pub fn read_values(input: &mut impl Read, count: u32, values: &mut [u32]) -> io::Result<bool> {
    let kept = part_of(values, count);
    for value in &mut values[..kept] {
        let Some(word) = read_word(input)? else {
            return Ok(false);
        };
        *value = word;
    }
    skipped(input, 4 * (u64::from(count) - kept as u64))
}

// ---- calls

#[derive(Clone, Copy)]
pub enum Call {
    Step { kind: u32, number: u32, stream: u32 },
    Run { steps: u32 },
    Ready,
    Window { pipe: u32, side: u32 },
    Result,
    State,
    Received,
    Poke { word: u32, value: u32 },
    Lend { list: u32, length: u32 },
}

// The call of a number and three words.
fn call_of(number: u32, a: u32, b: u32, c: u32) -> Option<Call> {
    match number {
        0 => Some(Call::Step {
            kind: a,
            number: b,
            stream: c,
        }),
        1 => Some(Call::Run { steps: a }),
        2 => Some(Call::Ready),
        3 => Some(Call::Window { pipe: a, side: b }),
        4 => Some(Call::Result),
        5 => Some(Call::State),
        6 => Some(Call::Received),
        7 => Some(Call::Poke { word: a, value: b }),
        8 => Some(Call::Lend { list: a, length: b }),
        _ => None,
    }
}

// The next call; none where the script ends, as it does at any other number.
pub fn read_call(input: &mut impl Read) -> io::Result<Option<Call>> {
    let mut bytes = [0u8; 16];
    if reading::read_full(input, &mut bytes)? < 16 {
        return Ok(None);
    }
    let [number, a, b, c] = [0, 1, 2, 3].map(|k| integers::bits_at(&bytes, k));
    Ok(call_of(number, a, b, c))
}

// ---- lent lists

// The lengths at which the five lists are lent.
#[derive(Clone, Copy)]
pub struct Lent {
    pub waiting: u32,
    pub received: u32,
    pub state: u32,
    pub ready: u32,
    pub output: u32,
}

impl Lent {
    // The lengths that Accept gives.
    pub fn new(elements: u32, words: u32) -> Lent {
        Lent {
            waiting: elements,
            received: elements,
            state: words,
            ready: 16,
            output: elements,
        }
    }

    // The list of that number is lent at another length.
    pub fn lend(&mut self, list: u32, length: u32) {
        match list {
            0 => self.waiting = length,
            1 => self.received = length,
            2 => self.state = length,
            3 => self.ready = length,
            4 => self.output = length,
            _ => {}
        }
    }
}

// How much of a list is lent: so many words, or all if there are fewer.
pub fn part_of<T>(list: &[T], words: u32) -> usize
    ensures in_bounds { result ≤ length list.now }
    ensures prefix_len { result ≡ length (take result list.now) }
    ensures upper_bound { result ≤ words }
{
    list.len().min(words as usize)
}
