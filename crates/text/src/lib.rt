// How lines of text name words, points and instances.

#![tactic(auto)]

use integers::{V2, V3};
use std::fmt::Display;
use std::{fmt, io};

// Words, each behind a blank.
#[derive(Clone, Copy)]
pub struct Each<'a, T>(pub &'a [T]);

impl<T: Display> Display for Each<'_, T> {
    fn fmt<W: fmt::Write>(&self, f: &mut fmt::Formatter<W>) -> fmt::Result {
        for word in self.0 {
            write!(f, " {word}")?;
        }
        Ok(())
    }
}

// The coordinates of a point of an array, each behind a blank: one where there are two loops.
#[derive(Clone, Copy)]
pub struct Point {
    pub y: V2,
    pub loops: u32,
}

impl Display for Point {
    fn fmt<W: fmt::Write>(&self, f: &mut fmt::Formatter<W>) -> fmt::Result {
        let V2 { a, b } = self.y;
        if self.loops == 2 {
            write!(f, " {a}")
        } else {
            write!(f, " {a} {b}")
        }
    }
}

// The coordinates of an instance, each behind a blank: as many as there are loops.
#[derive(Clone, Copy)]
pub struct Instance {
    pub x: V3,
    pub loops: u32,
}

impl Display for Instance {
    fn fmt<W: fmt::Write>(&self, f: &mut fmt::Formatter<W>) -> fmt::Result {
        let V3 { x, y, z } = self.x;
        if self.loops == 2 {
            write!(f, " {x} {y}")
        } else {
            write!(f, " {x} {y} {z}")
        }
    }
}

// `refused` and the number.
pub fn print_refusal(rt: &impl Print, refusal: impl Display + Copy) -> io::Result<()> {
    println!(rt; "refused {refusal}")
}
