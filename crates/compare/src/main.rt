// What Accept, Table and Plain run answer and leave in the lent lists, and the walk by process, for descriptions on standard input, each
// behind two words: its number of bytes, and the board that every call is told. It reads up to 65,536 descriptions; more than 508 bytes are
// taken as 508, and bytes that are missing as 0. For each it prints Accept's answer, then `walk` with the number by which 33 or 1 to 10
// refuse it, or 0, and the sum of the walk's coordinates, then `table` with three calls (one row fewer than there are processes, as many,
// and 1,024), then `plain` with four calls (a value too few, an output too long, both wrong, and both right). A call is printed as the
// number by which it declines, or 0, and the sum of its list, one row or word more than the call names. An array of at most 12 elements has
// the walk's instances, its rows, values and final values printed as well. A description that is declined counts as one process and one
// element.

#![tactic(auto)]

ghost use Rattle.std.specs.Prelude.{◌+◌, ◌≤◌, length, IfOk};
ghost use Rattle.meaning.specs.Limits.{gauge_limits, elements_most};

use integers::V3;
use layout::SPANS;
use meaning::{Divisors, ELEMENTS, Figures, PROCESSES, Row};
use refusals::Refusal;
use std::io;
use std::io::Read;
use text::{Each, Instance, Point};
use walk::WALK;

// How many descriptions are read, and the bytes of one that are read.
const DESCRIPTIONS: u32 = 65536;

const BYTES: usize = 508;

// ---- sums

// The sum goes on over whole numbers, each modulo 2^32.
fn mix_signed<T: Into<i32> + Copy>(sum: u32, numbers: &[T]) -> u32 {
    numbers
        .iter()
        .fold(sum, |sum, z| sums::mix(sum, (*z).into().cast_unsigned()))
}

fn mix_vector(sum: u32, v: V3) -> u32 {
    mix_signed(sum, &[v.x, v.y, v.z])
}

fn mix_row(sum: u32, r: Row) -> u32 {
    let y = r.point;
    let point = mix_signed(sum, &[y.a, y.b]);
    let count = sums::mix(point, r.count);
    let first = mix_vector(count, r.first);
    let last = mix_vector(first, r.last);
    let soaks = sums::sum_of(last, &r.soak);
    sums::sum_of(soaks, &r.drain)
}

fn sum_of_rows(rows: &[Row]) -> u32 {
    rows.iter().fold(0, |sum, row| mix_row(sum, *row))
}

// ---- text

fn print_row(rt: &impl Print, r: Row) -> io::Result<()> {
    let point = Point {
        y: r.point,
        loops: 3,
    };
    let count = r.count;
    let first = Instance {
        x: r.first,
        loops: 3,
    };
    let last = Instance {
        x: r.last,
        loops: 3,
    };
    let soak = Each(&r.soak[..]);
    let drain = Each(&r.drain[..]);
    println!(rt; "row{point} {count}{first}{last}{soak}{drain}")
}

fn print_call(rt: &impl Print, answer: Result<(), Refusal>, sum: u32) -> io::Result<()> {
    let number = answer_words::number_of(&answer);
    print!(rt; " {number} {sum}")
}

fn print_figures(rt: &impl Print, f: Figures, g: Divisors) -> io::Result<()> {
    let processes = f.processes;
    let others = [
        f.instances,
        f.elements,
        f.pipes,
        f.words,
        f.steps,
        g.place,
        g.stream0,
        g.stream1,
        g.stream2,
        g.stream3,
        g.stream4,
        g.stream5,
    ];
    let others = Each(&others[..]);
    println!(rt; "{processes}{others}")
}

// ---- the calls

// What the lengths of the lists are made of: processes, elements, and whether all is printed.
#[derive(Clone, Copy)]
struct Extents {
    processes: usize,
    elements: usize,
    small: bool,
}

fn accept_line(rt: &impl Print, board: u32, s: &[u8]) -> io::Result<Extents>
    ensures { IfOk result (λ e. (1 ≤ e.processes) × (e.processes ≤ gauge_limits.processes)
        × (1 ≤ e.elements) × (e.elements ≤ elements_most)) }
{
    match accept::accept(board, s) {
        Ok((f, g)) => {
            print_figures(rt, f, g)?;
            Ok(Extents {
                processes: (f.processes as usize).clamp(1, PROCESSES),
                elements: (f.elements as usize).clamp(1, ELEMENTS),
                small: f.elements <= 12,
            })
        }
        Err(refusal) => {
            text::print_refusal(rt, refusal)?;
            Ok(Extents {
                processes: 1,
                elements: 1,
                small: false,
            })
        }
    }
}

// The sum of the walk's coordinates, and all of them if the array is small.
fn print_visits(rt: &impl Print, walk: &[i8], small: bool) -> io::Result<()> {
    let sum = mix_signed(0, walk);
    println!(rt; "walk 0 {sum}")?;
    if small {
        let coordinates = Each(walk);
        println!(rt; "along{coordinates}")?;
    }
    Ok(())
}

fn walk_lines(rt: &impl Print, board: u32, s: &[u8], small: bool) -> io::Result<()> {
    let mut spans = [0u32; SPANS];
    let mut walk = [0i8; WALK];
    match walkable::walk_of(board, s, &mut spans, &mut walk) {
        Ok(v) => {
            let n = 3 * v.loops.instances as usize;
            print_visits(rt, &walk[..n], small)
        }
        Err(refusal) => println!(rt; "walk {refusal} 0"),
    }
}

fn table_call(rt: &impl Print, board: u32, s: &[u8], lent: usize, seen: usize) -> io::Result<()> {
    let listed = table_rows::table(s, lent, board);
    let n = seen.min(PROCESSES);
    print_call(rt, listed.answer, sum_of_rows(&listed.rows[..n]))
}

fn table_lines(rt: &impl Print, board: u32, s: &[u8], e: Extents) -> io::Result<()>
    requires { (1 ≤ e.processes) × (e.processes ≤ gauge_limits.processes) }
{
    let processes = e.processes;
    print!(rt; "table")?;
    table_call(rt, board, s, processes - 1, processes + 1)?;
    table_call(rt, board, s, processes, processes + 1)?;
    table_call(rt, board, s, PROCESSES, processes + 1)?;
    println!(rt; "")?;
    if e.small {
        let rows = table_rows::table(s, processes, board).rows;
        for row in &rows[..processes] {
            print_row(rt, *row)?;
        }
    }
    Ok(())
}

// The call is lent the first places of a list of which all are seen.
fn plain_call(
    rt: &impl Print,
    board: u32,
    s: &[u8],
    values: &[u32],
    output: &mut [u32],
    lent: usize,
) -> io::Result<()>
    requires { lent ≤ length output.old }
{
    output.fill(7);
    let answer = plain::plain_run(board, s, values, &mut output[..lent]);
    print_call(rt, answer, sums::sum_of(0, output))
}

// The list and the values have a place more than there are elements.
fn plain_calls(
    rt: &impl Print,
    board: u32,
    s: &[u8],
    values: &[u32],
    output: &mut [u32],
    elements: usize,
) -> io::Result<()>
    requires { (1 ≤ elements) × (elements + 1 ≤ length values.now) × (elements + 1 ≤ length output.old) }
{
    let fewer = elements - 1;
    let more = elements + 1;
    plain_call(rt, board, s, &values[..fewer], output, elements)?;
    plain_call(rt, board, s, &values[..elements], output, more)?;
    plain_call(rt, board, s, &values[..more], output, fewer)?;
    plain_call(rt, board, s, &values[..elements], output, elements)
}

// The values are those of Fill from a seed.
fn plain_lines(rt: &impl Print, board: u32, s: &[u8], e: Extents, seed: u32) -> io::Result<()>
    requires { (1 ≤ e.elements) × (e.elements ≤ elements_most) }
{
    let elements = e.elements;
    let more = elements + 1;
    let mut values = [0u32; ELEMENTS + 1];
    let mut output = [0u32; ELEMENTS + 1];
    let _ = fill::fill(seed, more, &mut values);
    print!(rt; "plain")?;
    plain_calls(rt, board, s, &values, &mut output[..more], elements)?;
    println!(rt; "")?;
    if e.small {
        let values = Each(&values[..elements]);
        println!(rt; "values{values}")?;
        let output = Each(&output[..elements]);
        println!(rt; "final{output}")?;
    }
    Ok(())
}

fn compare(rt: &impl Print, board: u32, s: &[u8], seed: u32) -> io::Result<()> {
    let e = accept_line(rt, board, s)?;
    walk_lines(rt, board, s, e.small)?;
    table_lines(rt, board, s, e)?;
    plain_lines(rt, board, s, e, seed)
}

// ---- the input

// Whether there was a description.
fn compare_next(rt: &impl Print, input: &mut impl Read, seed: u32) -> io::Result<bool> {
    let mut words = [0u8; 8];
    if reading::read_full(input, &mut words)? < 8 {
        return Ok(false);
    }
    let wanted = integers::bits_at(&words, 0);
    let board = integers::bits_at(&words, 1);
    let mut bytes = [0u8; BYTES];
    let n = bytes.len().min(wanted as usize);
    reading::read_full(input, &mut bytes[..n])?;
    compare(rt, board, &bytes[..n], seed)?;
    Ok(true)
}

// The values of the description of a number are those of Fill from the next number.
fn main(rt: HostRuntime) -> io::Result<()> {
    let mut input = rt.stdin();
    for number in 0..DESCRIPTIONS {
        if !compare_next(&rt, &mut input, number + 1)? {
            break;
        }
    }
    Ok(())
}
