// Document 01, "The description": bytes to words and words to a Description. Words past the end read as 0, so that every read is defined.
//
// specs/, by file:
//
//   Offsets     where the parts begin, of sizes in range
//   Filled      lists with a part in use and a pad behind it
//   Ranges      what a word in its range is, by its magnitude and by its bits
//   Refusals    the refusals 1 to 5 in stages, which the crate `refuse_words` tests
//   Ranged      what a refusal of 0 says of a description, as one record of ranges

#![tactic(auto)]

ghost use Rattle.std.specs.Prelude.{◌≡◌, ◌≤◌, ◌<◌, get_or};
ghost use Rattle.meaning.specs.Description.{sizes_of, stream_of, body_line, no_stream, no_line, description_of, written};
ghost use Rattle.decode.specs.Offsets.{Sized};
ghost use Rattle.decode.specs.Filled.{filled};

use decode_nest::{loading, matrix, nest};
use integers::{Matrix, V2, V3};
use meaning::{Description, Line, Nest, Sizes, Stream};

mod fit_sizes;

pub use fit_sizes::FitSizes;

// ---- the parts

// The three sizes.
pub fn sizes(s: &[u8]) -> Sizes
    ensures { result ≡ sizes_of s.now }
{
    Sizes {
        loops: integers::bits_at(s, 0),
        streams: integers::bits_at(s, 1),
        lines: integers::bits_at(s, 2),
    }
}

// Stream i.
fn stream_of(s: &[u8], z: FitSizes, i: u32) -> Stream
    requires { i < 6 }
    ensures { result ≡ stream_of s.now z.sizes i }
{
    Stream {
        map: matrix(s, z.sizes, z.map_at(i)),
        loading: loading(s, z.sizes, z.loading_at(i)),
    }
}

// Line i.
fn line_of(s: &[u8], z: FitSizes, i: u32) -> Line
    requires { i < 8 }
    ensures { result ≡ body_line s.now z.sizes i }
{
    let k = z.line_at(i);
    Line {
        operation: integers::bits_at(s, k),
        target: integers::bits_at(s, k + 1),
        first: integers::bits_at(s, k + 2),
        second: integers::bits_at(s, k + 3),
        index: integers::bits_at(s, k + 4),
        comparison: integers::bits_at(s, k + 5),
        bound: integers::word_at(s, k + 6),
    }
}

// What stands past the streams in use.
pub fn no_stream() -> Stream
    ensures { result ≡ no_stream }
{
    let zero = V3 { x: 0, y: 0, z: 0 };
    Stream {
        map: Matrix {
            top: zero,
            low: zero,
        },
        loading: V2 { a: 0, b: 0 },
    }
}

// What stands past the lines in use.
fn no_line() -> Line
    ensures { result ≡ no_line }
{
    Line {
        operation: 0,
        target: 0,
        first: 0,
        second: 0,
        index: 0,
        comparison: 0,
        bound: 0,
    }
}

// All streams.
fn streams(s: &[u8], z: FitSizes) -> [Stream; 6]
    ensures { result ≡ filled (stream_of s.now z.sizes) z.sizes.streams 6 no_stream }
{
    let mut out = [no_stream(); 6];
    for i in 0..z.sizes.streams {
        out[i as usize] = stream_of(s, z, i);
    }
    out
}

// All lines.
fn lines(s: &[u8], z: FitSizes) -> [Line; 8]
    ensures { result ≡ filled (body_line s.now z.sizes) z.sizes.lines 8 no_line }
{
    let mut out = [no_line(); 8];
    for i in 0..z.sizes.lines {
        out[i as usize] = line_of(s, z, i);
    }
    out
}

// ---- the description

// The decoded description, of bytes whose sizes are in range.
pub fn description(s: &[u8]) -> Description
    requires { Sized (sizes_of s.now) }
    ensures { result ≡ description_of s.now }
{
    let z = FitSizes { sizes: sizes(s) };
    Description {
        sizes: z.sizes,
        nest: nest(s, z.sizes),
        streams: streams(s, z),
        lines: lines(s, z),
    }
}

// Loops of zeros, where there is nothing to decode.
pub fn no_nest() -> Nest {
    let zero = V3 { x: 0, y: 0, z: 0 };
    Nest {
        left: zero,
        right: zero,
        direction: zero,
        step: zero,
        place: Matrix {
            top: zero,
            low: zero,
        },
    }
}

// Stream i of a description.
pub fn stream(d: Description, i: usize) -> Stream
    requires { i < 6 }
    ensures { result ≡ get_or d.streams i no_stream }
{
    d.streams[i]
}

// Line i of a description.
pub fn line(d: Description, i: usize) -> Line
    requires { i < 8 }
    ensures { result ≡ get_or d.lines i no_line }
{
    d.lines[i]
}

// Whether i is some line's target.
pub fn written(d: Description, i: u32) -> bool
    requires { d.sizes.lines ≤ 8 }
    ensures { result ≡ written d i }
{
    for line in &d.lines[..d.sizes.lines as usize] {
        if line.target == i {
            return true;
        }
    }
    false
}
