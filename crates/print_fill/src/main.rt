// The values that Fill writes, request 2.3: its arguments are a seed and n as decimal numerals; on standard output the values, one to a
// line, or `refused` and the number. Its list has 65,536 places, so more values are refused by 31. An argument that is no numeral of a
// word, or missing, is 4,294,967,295.

#![tactic(auto)]

use std::fmt::Display;
use std::{fmt, io};

const PLACES: usize = 65536;

// Values, one to a line.
#[derive(Clone, Copy)]
struct Lines<'a>(&'a [u32]);

impl Display for Lines<'_> {
    fn fmt<W: fmt::Write>(&self, f: &mut fmt::Formatter<W>) -> fmt::Result {
        for value in self.0 {
            writeln!(f, "{value}")?;
        }
        Ok(())
    }
}

// Lines with the first n words of a list.
fn print_values(rt: &impl Print, list: &[u32], n: u32) -> io::Result<()> {
    let lines = Lines(&list[..script::part_of(list, n)]);
    print!(rt; "{lines}")
}

fn print_fill(rt: &impl Print, seed: u32, n: u32) -> io::Result<()> {
    let mut list = [0u32; PLACES];
    match fill::fill(seed, n as usize, &mut list) {
        Ok(()) => print_values(rt, &list, n),
        Err(refusal) => text::print_refusal(rt, refusal),
    }
}

fn main(rt: HostRuntime) -> io::Result<()> {
    let seed = argument::word_argument(&rt, 1);
    let n = argument::word_argument(&rt, 2);
    print_fill(&rt, seed, n)
}
