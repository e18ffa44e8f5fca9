// What Fill and Make, request 2.3, answer and leave in the lent list, for calls on standard input. It reads up to 65,536 records of six
// words, least byte first: call, seed, a, b, c, and how many places are lent; one that is not whole ends the program. Call 0 is Fill of a
// values into a list of 4,096 words. It prints `fill` with the number by which the call declines, or 0, the sum of the lent places and the
// next, and the state as many rounds before the last value as there are values, 0 if it declines; then `values` with all of them if there
// are at most 8. Any other call is Make of the sizes a, b and c into a list of 512 bytes. It prints `make` with the number by which it
// declines, or 0, how many bytes the description has, 0 if it declines, and the sum of the lent places and the next; then `words` with all
// of its words if there are at most 36. Every place is 7 before a call, and the last is never lent.

#![tactic(auto)]

ghost use Rattle.std.specs.Prelude.{◌<◌};

use meaning::Sizes;
use std::fmt::Display;
use std::io::Read;
use std::{fmt, io};
use text::Each;

// The places of Fill's list and of Make's.
const WORDS: usize = 4096;

const BYTES: usize = 512;

// A call.
#[derive(Clone, Copy)]
struct Record {
    call: u32,
    seed: u32,
    a: u32,
    b: u32,
    c: u32,
    lent: u32,
}

// How many places are lent: so many, or all but the last.
fn within(lent: u32, places: usize) -> usize
    requires { 0 < places }
    ensures { result < places }
{
    (places - 1).min(lent as usize)
}

// ---- Fill

// The state as many rounds before the last value as there are values; the seed if there are none.
fn back(seed: u32, values: &[u32]) -> u32 {
    let Some(last) = values.last() else {
        return seed;
    };
    let mut state = *last;
    for _ in values {
        state = generator::previous(state);
    }
    state
}

fn print_filled(rt: &impl Print, seed: u32, values: &[u32], sum: u32) -> io::Result<()> {
    let state = back(seed, values);
    println!(rt; "fill 0 {sum} {state}")?;
    if values.len() <= 8 {
        let values = Each(values);
        println!(rt; "values{values}")?;
    }
    Ok(())
}

fn fill_lines(rt: &impl Print, r: Record) -> io::Result<()> {
    let lent = within(r.lent, WORDS);
    let mut list = [7u32; WORDS];
    let answer = fill::fill(r.seed, r.a as usize, &mut list[..lent]);
    let sum = sums::sum_of(0, &list[..=lent]);
    match answer {
        Ok(()) => {
            let n = script::part_of(&list, r.a);
            print_filled(rt, r.seed, &list[..n], sum)
        }
        Err(refusal) => println!(rt; "fill {refusal} {sum} 0"),
    }
}

// ---- Make

// The words of a description, each behind a blank.
#[derive(Clone, Copy)]
struct Description<'a>(&'a [u8]);

impl Display for Description<'_> {
    fn fmt<W: fmt::Write>(&self, f: &mut fmt::Formatter<W>) -> fmt::Result {
        for bytes in self.0.chunks_exact(4) {
            let word = integers::word_at(bytes, 0);
            write!(f, " {word}")?;
        }
        Ok(())
    }
}

fn print_made(rt: &impl Print, description: &[u8], sum: u32) -> io::Result<()> {
    let bytes = description.len();
    println!(rt; "make 0 {bytes} {sum}")?;
    if bytes / 4 <= 36 {
        let words = Description(description);
        println!(rt; "words{words}")?;
    }
    Ok(())
}

fn make_lines(rt: &impl Print, r: Record) -> io::Result<()> {
    let z = Sizes {
        loops: r.a,
        streams: r.b,
        lines: r.c,
    };
    let lent = within(r.lent, BYTES);
    let mut output = [7u8; BYTES];
    let answer = make::make(r.seed, z, &mut output[..lent]);
    let sum = sums::sum_of(0, &output[..=lent]);
    match answer {
        Ok(bytes) => {
            let n = output.len().min(bytes as usize);
            print_made(rt, &output[..n], sum)
        }
        Err(refusal) => println!(rt; "make {refusal} 0 {sum}"),
    }
}

// ---- the input

fn record_of(bytes: &[u8; 24]) -> Record {
    Record {
        call: integers::bits_at(bytes, 0),
        seed: integers::bits_at(bytes, 1),
        a: integers::bits_at(bytes, 2),
        b: integers::bits_at(bytes, 3),
        c: integers::bits_at(bytes, 4),
        lent: integers::bits_at(bytes, 5),
    }
}

fn print_lines(rt: &impl Print, r: Record) -> io::Result<()> {
    if r.call == 0 {
        fill_lines(rt, r)
    } else {
        make_lines(rt, r)
    }
}

// Whether there was a call.
fn next_call(rt: &impl Print, input: &mut impl Read) -> io::Result<bool> {
    let mut bytes = [0u8; 24];
    if reading::read_full(input, &mut bytes)? < 24 {
        return Ok(false);
    }
    print_lines(rt, record_of(&bytes))?;
    Ok(true)
}

fn main(rt: HostRuntime) -> io::Result<()> {
    let mut input = rt.stdin();
    for _ in 0..65536 {
        if !next_call(&rt, &mut input)? {
            break;
        }
    }
    Ok(())
}
