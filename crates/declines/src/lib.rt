// The tests that the calls make of what they are lent once the description is accepted, in the documents' order: each function answers the
// first refusal that applies. Pure functions of lengths and truths; the calls cite them.

#![tactic(auto, unfolding(meaning::specs::Tests::refusal))]

ghost use Rattle.std.specs.Prelude.{◌≡◌};
ghost use Rattle.refusals.specs.Numbers.{refusal_number};
ghost use Rattle.meaning.specs.Tests.{refusal};
ghost use Rattle.declines.specs.Tests.{table_lengths, plain_lengths, memory_lengths, state_tests, start_lengths, window_lengths};
ghost use Rattle.declines.specs.Tests.{ready_lengths, result_tests};

use meaning::Figures;
use refusals::Refusal;

// Table: 18 where there is no room for all rows.
pub fn of_table(processes: usize, room: usize) -> Result<(), Refusal>
    ensures { refusal_number result ≡ refusal (table_lengths processes room) }
{
    if room < processes {
        return Err(Refusal::Rows);
    }
    Ok(())
}

// Plain run: 20 for the values, 28 for the output.
pub fn of_plain(elements: u32, values: usize, output: usize) -> Result<(), Refusal>
    ensures { refusal_number result ≡ refusal (plain_lengths elements values output) }
{
    let e = elements as usize;
    if values != e {
        return Err(Refusal::Values);
    }
    if output != e {
        return Err(Refusal::Output);
    }
    Ok(())
}

// Step, Run, Ready and Result: 20 for the waiting list, 26 for received, 21 for a state that is short.
pub fn of_memory(f: Figures, waiting: usize, received: usize, state: usize) -> Result<(), Refusal>
    ensures { refusal_number result ≡ refusal (memory_lengths f.elements f.words waiting received state) }
{
    let asked = f.elements as usize;
    let words = f.words as usize;
    if waiting != asked {
        return Err(Refusal::Values);
    }
    if received != asked {
        return Err(Refusal::Received);
    }
    if state < words {
        return Err(Refusal::State);
    }
    Ok(())
}

// The same four, then: 22 for a state that is not sound.
pub fn of_state(sound: bool) -> Result<(), Refusal>
    ensures { refusal_number result ≡ refusal (state_tests sound) }
{
    if sound { Ok(()) } else { Err(Refusal::Unsound) }
}

// Start: 20 for the values too, and then as those.
pub fn of_start(
    f: Figures,
    values: usize,
    waiting: usize,
    received: usize,
    state: usize,
) -> Result<(), Refusal>
    ensures { refusal_number result ≡ refusal (start_lengths f.elements f.words values waiting received state) }
{
    let e = f.elements as usize;
    if values != e {
        return Err(Refusal::Values);
    }
    of_memory(f, waiting, received, state)
}

// Window, before its pipe is looked for: 20 and 26 for the lists, 19 for the side.
pub fn of_window(elements: u32, side: u32, waiting: usize, received: usize) -> Result<(), Refusal>
    ensures { refusal_number result ≡ refusal (window_lengths elements side waiting received) }
{
    let e = elements as usize;
    if waiting != e {
        return Err(Refusal::Values);
    }
    if received != e {
        return Err(Refusal::Received);
    }
    if side < 2 { Ok(()) } else { Err(Refusal::Pipe) }
}

// Ready: 27 for fewer than sixteen words.
pub fn of_ready(words: usize) -> Result<(), Refusal>
    ensures { refusal_number result ≡ refusal (ready_lengths words) }
{
    if words < 16 {
        return Err(Refusal::Words);
    }
    Ok(())
}

// Result: 25 where not all is out, 28 for the output.
pub fn of_result(out: bool, fits: bool) -> Result<(), Refusal>
    ensures { refusal_number result ≡ refusal (result_tests out fits) }
{
    if !out {
        return Err(Refusal::NotOut);
    }
    if fits { Ok(()) } else { Err(Refusal::Output) }
}
