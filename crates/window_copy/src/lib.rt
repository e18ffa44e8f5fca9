// The part that Window hands back, copied into a lent list, and its answer in words.

#![tactic(auto)]

ghost use Rattle.std.specs.Prelude.{◌≡◌, []};
ghost use Rattle.meaning.specs.Limits.{limits_of};
ghost use Rattle.meaning.specs.Calls.{window};
ghost use Rattle.answer_words.specs.Words.{words_of};
ghost use Rattle.window_copy.specs.Copied.{copied};

use answer_words::Words;

// The values go over the first places of a list, as far as there is room.
fn copy(values: &[u32], to: &mut [u32])
    ensures { to.new ≡ copied values.now to.old }
{
    let n = values.len().min(to.len());
    to[..n].copy_from_slice(&values[..n]);
}

// The part that Window hands back is copied; its answer in words.
pub fn see<'a>(
    board: u32,
    s: &[u8],
    pipe: u32,
    side: u32,
    part: &mut [u32],
    waiting: &'a [u32],
    received: &'a [u32],
) -> Words
    ensures { (part.new ≡ copied
        (window (limits_of board) s.now pipe side waiting.now received.now).part part.old)
        × (result ≡ words_of (window (limits_of board) s.now pipe side waiting.now received.now).refusal []) }
{
    match window::window(board, s, pipe, side, waiting, received) {
        Ok(seen) => {
            copy(seen, part);
            Words {
                number: 0,
                first: 0,
                second: 0,
            }
        }
        Err(refusal) => Words {
            number: refusal.number(),
            first: 0,
            second: 0,
        },
    }
}
