// Demand 3 for the code: Start and then any list of calls, played on lent memory, with every answer noted. What they leave is what
// `meaning` says, and demand 3 holds of it. A call stands in five words: 0 Step with kind, number and stream; 1 Run with a number of steps;
// 2 Ready; 3 Window with pipe and side; any other Result; the last of the five is the board that it is told, which need not be Start's. Its
// answer is noted in three words (`answer_words`), and the part that Window hands back is copied.
//
// In specs/, Play says which calls words stand for, what they leave of all that is lent, and that demand 3 holds of it.

#![tactic(auto)]

ghost use Rattle.std.specs.Prelude.{◌≡◌, ◌+◌, ◌*◌, ◌/◌, ◌≤◌, length};
ghost use Rattle.refusals.specs.Numbers.{numbered};
ghost use Rattle.meaning.specs.Answers.{Done};
ghost use Rattle.meaning.specs.Limits.{limits_of};
ghost use Rattle.meaning.specs.Rules.{memory_of};
ghost use Rattle.meaning.specs.Calls.{start};
ghost use Rattle.meaning.specs.Demand3.{memory_after, Demand3};
ghost use Rattle.demand3.specs.Play.{lent_of, made_of, made, turn, play_from, played, calls_made};

use answer_words::Words;
use refusals::Refusal;

// ---- one call

// The k-th call is made; its answer in words.
fn make_call(
    s: &[u8],
    calls: &[u32],
    k: usize,
    words: &mut [u64],
    output: &mut [u32],
    part: &mut [u32],
    waiting: &[u32],
    received: &mut [u32],
    state: &mut [u32],
) -> Words
    requires { 5 * k + 5 ≤ length calls.now }
    ensures { made_of (memory_of waiting.now received.new state.new) words.new
        output.new part.new result
        ≡ made s.now calls.now k (memory_of waiting.now received.old state.old)
        words.old output.old part.old }
{
    let board = calls[5 * k + 4];
    match calls[5 * k] {
        0 => answer_words::of_answer(&step::step(
            board,
            s,
            calls[5 * k + 1],
            calls[5 * k + 2],
            calls[5 * k + 3],
            waiting,
            received,
            state,
        )),
        1 => answer_words::of_values(&run::run(
            board,
            s,
            calls[5 * k + 1],
            waiting,
            received,
            state,
        )),
        2 => answer_words::of_values(&ready::ready(board, s, words, waiting, received, state)),
        3 => window_copy::see(
            board,
            s,
            calls[5 * k + 1],
            calls[5 * k + 2],
            part,
            waiting,
            received,
        ),
        _ => answer_words::of_answer(&result::result(board, s, output, waiting, received, state)),
    }
}

// The k-th call is made, and its answer noted.
fn play_call(
    s: &[u8],
    calls: &[u32],
    k: usize,
    words: &mut [u64],
    output: &mut [u32],
    part: &mut [u32],
    answers: &mut [u32],
    waiting: &[u32],
    received: &mut [u32],
    state: &mut [u32],
)
    requires { 5 * k + 5 ≤ length calls.now }
    ensures { lent_of waiting.now received.new state.new words.new output.new
        part.new answers.new
        ≡ turn s.now calls.now k
        (lent_of waiting.now received.old state.old words.old
        output.old part.old answers.old) }
{
    let noted = make_call(s, calls, k, words, output, part, waiting, received, state);
    answer_words::note(answers, k, noted);
}

// ---- all of them

// The calls in turn.
fn play_calls(
    s: &[u8],
    calls: &[u32],
    words: &mut [u64],
    output: &mut [u32],
    part: &mut [u32],
    answers: &mut [u32],
    waiting: &[u32],
    received: &mut [u32],
    state: &mut [u32],
)
    ensures { lent_of waiting.now received.new state.new words.new output.new
        part.new answers.new
        ≡ play_from s.now calls.now 0 (length calls.now / 5)
        (lent_of waiting.now received.old state.old
        words.old output.old part.old answers.old) }
{
    let n = calls.len() / 5;
    for k in 0..n {
        play_call(
            s, calls, k, words, output, part, answers, waiting, received, state,
        );
    }
}

// Start, then, if it has not declined, the calls in turn. The contract says what is left of all that is lent, and demand 3.
pub fn play(
    board: u32,
    s: &[u8],
    values: &[u32],
    calls: &[u32],
    words: &mut [u64],
    output: &mut [u32],
    part: &mut [u32],
    answers: &mut [u32],
    waiting: &mut [u32],
    received: &mut [u32],
    state: &mut [u32],
) -> Result<(), Refusal>
    ensures { (numbered result ≡ (start (limits_of board) s.now values.now
        (memory_of waiting.old received.old state.old)).answer)
        × (lent_of waiting.new received.new state.new words.new output.new
        part.new answers.new
        ≡ played board s.now values.now calls.now
        (lent_of waiting.old received.old state.old
        words.old output.old part.old answers.old))
        × (numbered result ≡ Done → Demand3 (limits_of board) s.now values.now
        (memory_of waiting.old received.old state.old)
        × (memory_of waiting.new received.new state.new
        ≡ memory_after s.now (start (limits_of board) s.now values.now
        (memory_of waiting.old received.old state.old)).memory
        (calls_made board s.now values.now calls.now
        (lent_of waiting.old received.old state.old
        words.old output.old part.old answers.old)))) }
{
    start::start(board, s, values, waiting, received, state)?;
    play_calls(
        s, calls, words, output, part, answers, waiting, received, state,
    );
    Ok(())
}
