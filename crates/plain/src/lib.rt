// The call Plain run. In specs/, Call says what it answers and leaves; the loops are run in `written_order`.

#![tactic(auto)]

ghost use Rattle.std.specs.Prelude.{◌≡◌, length};
ghost use Rattle.refusals.specs.Numbers.{numbered};
ghost use Rattle.meaning.specs.Limits.{limits_of};
ghost use Rattle.meaning.specs.Calls.{plain_run};
ghost use Rattle.written_order.specs.Places.{Fitting};
ghost use Rattle.plain.specs.Call.{Called};

use layout::SPANS;
use refusals::Refusal;
use survey::Survey;

// The values go into the output. Word by word: std's copy of a slice would have C programs that link the library bring memmove.
fn fill_output(values: &[u32], output: &mut [u32])
    requires { length output.old ≡ length values.now }
    ensures { output.new ≡ values.now }
{
    for i in 0..values.len() {
        output[i] = values[i];
    }
}

// The call on an accepted description.
fn run_accepted(v: Survey, values: &[u32], output: &mut [u32]) -> Result<(), Refusal>
    requires { Fitting v.description }
    ensures { Called v.description values.now output.old (numbered result) output.new }
{
    let e = elements::element_count(v);
    declines::of_plain(e, values.len(), output.len())?;
    fill_output(values, output);
    written_order::run_loops(v, output);
    Ok(())
}

// Plain run: the final values in element order, of the values given in element order.
pub fn plain_run(board: u32, s: &[u8], values: &[u32], output: &mut [u32]) -> Result<(), Refusal>
    ensures { (numbered result ≡ (plain_run (limits_of board) s.now values.now output.old).answer)
        × (output.new ≡ (plain_run (limits_of board) s.now values.now output.old).output) }
{
    let mut spans = [0u32; SPANS];
    let v = refuse::survey_of(board, s, &mut spans)?;
    run_accepted(v, values, output)
}
