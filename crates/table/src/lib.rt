// Table: document 01's table of the processes, one row for each, in row order.
//
// specs/, by file:
//
//   Blocks      the words, block by block: the processes' and each stream's
//   Columns     what the columns hold; `columns-rows`: the rows read off them are document 01's
//   Drawable    what acceptance leaves for the columns; the refusal of the call

#![tactic(auto)]

ghost use Rattle.std.specs.Prelude.{◌≡◌, ◌++◌, ℕ, ◌<◌, ◌≤◌, length, take, drop, replicate, IfOk};
ghost use Rattle.integers.specs.Fill.{fill_by};
ghost use Rattle.refusals.specs.Numbers.{refusal_number, numbered};
ghost use Rattle.meaning.specs.Limits.{limits_of, gauge_limits, UpTo};
ghost use Rattle.meaning.specs.Description.{description_of, streams_of};
ghost use Rattle.meaning.specs.Calls.{table};
ghost use Rattle.survey.specs.OfBytes.{SurveyOf};
ghost use Rattle.layout.specs.Spans.{Spans, span_words};
ghost use Rattle.process_row.specs.Rows.{row_from, Readable, column_words};
ghost use Rattle.table.specs.Blocks.{Streamed};
ghost use Rattle.table.specs.Columns.{Shaped, Drawn, refused_for, Columns};
ghost use Rattle.table.specs.Drawable.{Drawable};

use layout::SPANS;
use meaning::{Limits, Row};
use pipes::BLOCK;
use process_row::{COLUMNS, Shape};
use refusals::Refusal;
use survey::Survey;

// ---- the columns

// The words of all streams in use.
fn fill_streams(v: Survey, spans: &[u32; SPANS], words: &mut [u32])
    requires { (Drawable v.description) × (Spans v.description.nest spans.now) × (words.old ≡ replicate column_words 0) }
    ensures { Streamed v.description.nest (streams_of v.description) (length (streams_of v.description))
        words.new }
{
    let m = v.description.sizes.streams as usize;
    let processes = v.loops.processes;
    for i in 0..m {
        let a = SPANS + BLOCK * i;
        let e = a + BLOCK;
        let f = survey::flow_at(v.flows, i);
        pipes::fill_stream(f, processes, spans, &mut words[a..e]);
    }
}

// The words of the processes go in front.
fn copy_spans(spans: &[u32; SPANS], words: &mut [u32])
    requires { span_words ≤ length words.old }
    ensures { words.new ≡ take span_words spans.now ++ drop span_words words.old }
{
    words[..SPANS].copy_from_slice(&spans[..SPANS]);
}

// What the rows need of a description.
fn shape_of(v: Survey) -> Shape
    ensures { Shaped v.description.nest result }
{
    Shape {
        rows: v.loops.processes as usize,
        nest: v.description.nest,
        space: v.loops.space,
    }
}

// The columns of a description; their words come as zeros.
fn draw(v: Survey, spans: &[u32; SPANS], words: &mut [u32]) -> Shape
    requires { (Drawable v.description) × (Spans v.description.nest spans.now) × (words.old ≡ replicate column_words 0) }
    ensures { Drawn v.description result words.new }
{
    fill_streams(v, spans, words);
    copy_spans(spans, words);
    shape_of(v)
}

// The survey of the description, or the refusal of the call; the words of the processes are filled.
fn survey_for(
    s: &[u8],
    limits: Limits,
    room: usize,
    spans: &mut [u32; SPANS],
) -> Result<Survey, Refusal>
    requires { UpTo limits gauge_limits }
    ensures number { refusal_number result ≡ refused_for limits s.now room }
    ensures surveyed { IfOk result (λ v. (SurveyOf s.now v) × (Spans v.description.nest spans.new)) }
{
    let v = refuse::survey_within(s, limits, spans)?;
    declines::of_table(v.loops.processes as usize, room)?;
    Ok(v)
}

// The columns of the call; their words come as zeros.
pub fn fill_columns(
    s: &[u8],
    board: u32,
    room: usize,
    words: &mut [u32; COLUMNS],
) -> Result<Shape, Refusal>
    requires { words.old ≡ replicate column_words 0 }
    ensures number { refusal_number result ≡ refused_for (limits_of board) s.now room }
    ensures drawn { IfOk result (λ shape. Columns (description_of s.now) room shape words.new) }
{
    let mut spans = [0u32; SPANS];
    let v = survey_for(s, boards::limits_of(board), room, &mut spans)?;
    Ok(draw(v, &spans, words))
}

// ---- all rows

// The rows of a shape are filled.
fn fill_rows<'r, 'a>(rows: &'r mut [Row], shape: Shape, words: &'a [u32; COLUMNS])
    requires { (shape.rows ≤ length rows.old) × ((p : ℕ) → p < shape.rows → Readable shape words.now p) }
    ensures { rows.new ≡ fill_by (row_from shape words.now) shape.rows rows.old }
{
    for i in 0..shape.rows {
        rows[i] = process_row::row_at(shape, words, i);
    }
}

// Table: one row for each process, in row order, or the refusal and no row.
pub fn table<'s, 'r>(s: &'s [u8], rows: &'r mut [Row], board: u32) -> Result<(), Refusal>
    ensures { (numbered result ≡ (table (limits_of board) s.now rows.old).answer)
        × (rows.new ≡ (table (limits_of board) s.now rows.old).rows) }
{
    let mut words = [0u32; COLUMNS];
    let room = rows.len();
    let shape = fill_columns(s, board, room, &mut words)?;
    fill_rows(rows, shape, &words);
    Ok(())
}
