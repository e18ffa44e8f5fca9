// Plays a replay script from standard input and prints a line for Accept, one for Start and one for each call, all of them told the
// script's board word. Calls: 0 step (kind, number, stream), 1 run (steps), 2 ready, 3 window (pipe, side), 4 result, 5 show the state, 6
// show the received list, 7 poke (word of the state, value), 8 lend (list, length); any other number ends the script. Several scripts stand
// behind the word 2^32 - 1, each behind a word with its number of bytes, and what each prints stands below a line with `script` and its
// number.

#![tactic(auto)]

use meaning::{Divisors, Figures, Ran, Readiness};
use refusals::Refusal;
use script::{Call, KEPT, Lent};
use std::io;
use std::io::Read;
use text::Each;

// The lengths of the lists that a script is lent at most: more values and words than any description asks for that is not declined.
const VALUES: usize = 32768;

const STATE: usize = 100000;

// The word that a bundle of scripts begins with.
const BUNDLE: u32 = 4294967295;

// ---- answers

fn print_answer(rt: &impl Print, name: &str, answer: Result<(), Refusal>) -> io::Result<()> {
    match answer {
        Ok(()) => println!(rt; "{name}"),
        Err(refusal) => text::print_refusal(rt, refusal),
    }
}

// The first so many words of a list, or all if there are fewer.
fn print_part(rt: &impl Print, name: &str, list: &[u32], words: u32) -> io::Result<()> {
    let part = Each(&list[..script::part_of(list, words)]);
    println!(rt; "{name}{part}")
}

// The six figures and the divisors of place and of each stream in use.
fn print_figures(rt: &impl Print, f: Figures, g: Divisors, streams: u32) -> io::Result<()> {
    let words = [
        f.processes,
        f.instances,
        f.elements,
        f.pipes,
        f.words,
        f.steps,
        g.place,
        g.stream0,
        g.stream1,
        g.stream2,
        g.stream3,
        g.stream4,
        g.stream5,
    ];
    print_part(rt, "accept", &words, streams.saturating_add(7))
}

fn print_ran(rt: &impl Print, answer: Result<Ran, Refusal>) -> io::Result<()> {
    match answer {
        Ok(Ran { steps, ready }) => {
            let ready = u32::from(ready);
            println!(rt; "run {steps} {ready}")
        }
        Err(refusal) => text::print_refusal(rt, refusal),
    }
}

// The first 16 of the lent words are those of the call.
fn print_readiness(
    rt: &impl Print,
    answer: Result<Readiness, Refusal>,
    words: &[u64; 32],
) -> io::Result<()> {
    match answer {
        Ok(Readiness { count, lowest }) => {
            let words = Each(&words[..16]);
            println!(rt; "ready {count} {lowest}{words}")
        }
        Err(refusal) => text::print_refusal(rt, refusal),
    }
}

// ---- the calls

fn accept_line(rt: &impl Print, board: u32, s: &[u8]) -> io::Result<Lent> {
    match accept::accept(board, s) {
        Ok((f, g)) => {
            print_figures(rt, f, g, decode::sizes(s).streams)?;
            Ok(Lent::new(f.elements, f.words))
        }
        Err(refusal) => {
            text::print_refusal(rt, refusal)?;
            Ok(Lent::new(0, 0))
        }
    }
}

fn start_line(
    rt: &impl Print,
    board: u32,
    s: &[u8],
    values: &[u32],
    l: Lent,
    waiting: &mut [u32],
    received: &mut [u32],
    state: &mut [u32],
) -> io::Result<()> {
    let w = script::part_of(waiting, l.waiting);
    let r = script::part_of(received, l.received);
    let n = script::part_of(state, l.state);
    let answer = start::start(
        board,
        s,
        values,
        &mut waiting[..w],
        &mut received[..r],
        &mut state[..n],
    );
    print_answer(rt, "start", answer)
}

fn ready_line(
    rt: &impl Print,
    board: u32,
    s: &[u8],
    length: u32,
    waiting: &[u32],
    received: &[u32],
    state: &[u32],
) -> io::Result<()> {
    let mut words = [7u64; 32];
    let k = script::part_of(&words, length);
    let answer = ready::ready(board, s, &mut words[..k], waiting, received, state);
    print_readiness(rt, answer, &words)
}

fn window_line<'a>(
    rt: &impl Print,
    board: u32,
    s: &[u8],
    pipe: u32,
    side: u32,
    waiting: &'a [u32],
    received: &'a [u32],
) -> io::Result<()> {
    match window::window(board, s, pipe, side, waiting, received) {
        Ok(part) => {
            let part = Each(part);
            println!(rt; "window{part}")
        }
        Err(refusal) => text::print_refusal(rt, refusal),
    }
}

fn result_line(
    rt: &impl Print,
    board: u32,
    s: &[u8],
    length: u32,
    waiting: &[u32],
    received: &[u32],
    state: &[u32],
) -> io::Result<()> {
    let mut output = [7u32; VALUES];
    let k = script::part_of(&output, length);
    match result::result(board, s, &mut output[..k], waiting, received, state) {
        Ok(()) => print_part(rt, "result", &output, length),
        Err(refusal) => text::print_refusal(rt, refusal),
    }
}

// ---- a script

// A call on the lists that are lent.
fn call_on(
    rt: &impl Print,
    board: u32,
    s: &[u8],
    call: Call,
    l: Lent,
    waiting: &[u32],
    received: &mut [u32],
    state: &mut [u32],
) -> io::Result<()> {
    match call {
        Call::Step {
            kind,
            number,
            stream,
        } => {
            let answer = step::step(board, s, kind, number, stream, waiting, received, state);
            print_answer(rt, "step", answer)
        }
        Call::Run { steps } => print_ran(rt, run::run(board, s, steps, waiting, received, state)),
        Call::Ready => ready_line(rt, board, s, l.ready, waiting, received, state),
        Call::Window { pipe, side } => window_line(rt, board, s, pipe, side, waiting, received),
        Call::Result => result_line(rt, board, s, l.output, waiting, received, state),
        Call::State => {
            let words = Each(state);
            println!(rt; "state{words}")
        }
        Call::Received => {
            let words = Each(received);
            println!(rt; "received{words}")
        }
        Call::Poke { word, value } => {
            let k = word as usize;
            if k < state.len() {
                state[k] = value;
            }
            println!(rt; "poke")
        }
        Call::Lend { .. } => println!(rt; "lend"),
    }
}

// The same on as much of the lists as is lent.
fn play_call(
    rt: &impl Print,
    board: u32,
    s: &[u8],
    call: Call,
    l: Lent,
    waiting: &[u32],
    received: &mut [u32],
    state: &mut [u32],
) -> io::Result<()> {
    let w = script::part_of(waiting, l.waiting);
    let r = script::part_of(received, l.received);
    let n = script::part_of(state, l.state);
    call_on(
        rt,
        board,
        s,
        call,
        l,
        &waiting[..w],
        &mut received[..r],
        &mut state[..n],
    )
}

// Plays the calls of a script. No input has as many as the bound.
fn play_calls(
    rt: &impl Print,
    input: &mut impl Read,
    board: u32,
    s: &[u8],
    first: Lent,
    waiting: &[u32],
    received: &mut [u32],
    state: &mut [u32],
) -> io::Result<()> {
    let mut l = first;
    for _ in 0..u64::MAX {
        let Some(call) = script::read_call(input)? else {
            break;
        };
        play_call(rt, board, s, call, l, waiting, received, state)?;
        if let Call::Lend { list, length } = call {
            l.lend(list, length);
        }
    }
    Ok(())
}

fn play_whole(
    rt: &impl Print,
    input: &mut impl Read,
    board: u32,
    s: &[u8],
    values: &[u32],
) -> io::Result<()> {
    let l = accept_line(rt, board, s)?;
    let mut waiting = [0u32; VALUES];
    let mut received = [0u32; VALUES];
    let mut state = [0u32; STATE];
    start_line(
        rt,
        board,
        s,
        values,
        l,
        &mut waiting,
        &mut received,
        &mut state,
    )?;
    play_calls(rt, input, board, s, l, &waiting, &mut received, &mut state)
}

// The words between a description and the calls: the board, and the number of values.
#[derive(Clone, Copy)]
struct Head {
    board: u32,
    count: u32,
}

// Reads what stands before the calls; none of a script that ends before.
fn read_head(
    input: &mut impl Read,
    length: u32,
    bytes: &mut [u8; KEPT],
    values: &mut [u32],
) -> io::Result<Option<Head>> {
    if !script::read_description(input, length, bytes)? {
        return Ok(None);
    }
    let Some(board) = script::read_word(input)? else {
        return Ok(None);
    };
    let Some(count) = script::read_word(input)? else {
        return Ok(None);
    };
    if !script::read_values(input, count, values)? {
        return Ok(None);
    }
    Ok(Some(Head { board, count }))
}

// Plays a script with a description of so many bytes.
fn play_script(rt: &impl Print, input: &mut impl Read, length: Option<u32>) -> io::Result<()> {
    let mut bytes = [0u8; KEPT];
    let mut values = [0u32; VALUES];
    let Some(length) = length else {
        return println!(rt; "short script");
    };
    let Some(head) = read_head(input, length, &mut bytes, &mut values)? else {
        return println!(rt; "short script");
    };
    let n = bytes.len().min(length as usize);
    let m = script::part_of(&values, head.count);
    play_whole(rt, input, head.board, &bytes[..n], &values[..m])
}

// ---- the input

// Plays the next script of a bundle, which has so many bytes.
fn next_script(rt: &impl Print, input: &mut impl Read, bytes: u32) -> io::Result<()> {
    let mut script = input.take(u64::from(bytes));
    let length = script::read_word(&mut script)?;
    play_script(rt, &mut script, length)?;
    let left = script.limit();
    script::skipped(&mut script, left)?;
    Ok(())
}

fn play_bundle(rt: &impl Print, input: &mut impl Read) -> io::Result<()> {
    for number in 0..u32::MAX {
        let Some(bytes) = script::read_word(input)? else {
            break;
        };
        println!(rt; "script {number}")?;
        next_script(rt, input, bytes)?;
    }
    Ok(())
}

fn main(rt: HostRuntime) -> io::Result<()> {
    let mut input = rt.stdin();
    match script::read_word(&mut input)? {
        Some(BUNDLE) => play_bundle(&rt, &mut input),
        length => play_script(&rt, &mut input, length),
    }
}
