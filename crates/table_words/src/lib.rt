// Table in lent words: how rows lie in them, and the call on as many rows as fit.
//
// specs/, by file:
//
//   Words     rows of the table as words
//   Lent      what Table leaves in lent words

#![tactic(auto)]

ghost use Rattle.std.specs.Prelude.{◌≡◌, ℕ, ◌*◌, ◌≤◌, ◌<◌, length};
ghost use Rattle.refusals.specs.Numbers.{refusal_number};
ghost use Rattle.meaning.specs.Limits.{limits_of};
ghost use Rattle.process_row.specs.Rows.{row_from, Readable};
ghost use Rattle.table_words.specs.Words.{laid, bits3, row_words, words_of};
ghost use Rattle.table_words.specs.Lent.{table_number, table_words};

use integers::{V3, bits_of};
use meaning::Row;
use process_row::{COLUMNS, Shape};
use refusals::Refusal;

// The words of a row.
const ROW_WORDS: usize = 21;

// ---- rows

fn vector_words(v: V3) -> [u32; 3]
    ensures { result ≡ bits3 v }
{
    [bits_of(v.x), bits_of(v.y), bits_of(v.z)]
}

// A row in its 21 words.
fn row_words(r: Row) -> [u32; ROW_WORDS]
    ensures { result ≡ row_words r }
{
    let point = r.point;
    let first = vector_words(r.first);
    let last = vector_words(r.last);
    let soak = r.soak;
    let drain = r.drain;
    [
        bits_of(point.a),
        bits_of(point.b),
        r.count,
        first[0],
        first[1],
        first[2],
        last[0],
        last[1],
        last[2],
        soak[0],
        soak[1],
        soak[2],
        soak[3],
        soak[4],
        soak[5],
        drain[0],
        drain[1],
        drain[2],
        drain[3],
        drain[4],
        drain[5],
    ]
}

// The rows, read off the columns, go into the words.
fn put_rows(shape: Shape, columns: &[u32; COLUMNS], words: &mut [u32])
    requires { (21 * shape.rows ≤ length words.old) × ((p : ℕ) → p < shape.rows → Readable shape columns.now p) }
    ensures { words.new ≡ laid (words_of (row_from shape columns.now) shape.rows) words.old }
{
    for p in 0..shape.rows {
        let row = row_words(process_row::row_at(shape, columns, p));
        words::store(words, ROW_WORDS * p, &row);
    }
}

// The rows, 21 words each; 18 if fewer fit than there are processes.
pub fn table_words(board: u32, bytes: &[u8], words: &mut [u32]) -> Result<(), Refusal>
    ensures { (refusal_number result ≡ table_number (limits_of board) bytes.now (length words.old))
        × (words.new
        ≡ laid (table_words (limits_of board) bytes.now (length words.old)) words.old) }
{
    let mut columns = [0u32; COLUMNS];
    let shape = table::fill_columns(bytes, board, words.len() / ROW_WORDS, &mut columns)?;
    put_rows(shape, &columns, words);
    Ok(())
}
