// One row of the table, read off the words of its columns. In specs/, Rows says where each word of a row stands there.

#![tactic(auto)]

ghost use Rattle.std.specs.Prelude.{◌≡◌, ◌<◌, ◌+◌, ◌*◌};
ghost use Rattle.meaning.specs.Limits.{gauge_limits};
ghost use Rattle.process_row.specs.Rows.{by_stream, row_from, Readable, column_words};

use layout::{LASTS, SPANS};
use meaning::{Nest, PROCESSES, Row, STREAMS};
use numbering::Extent;
use pipes::BLOCK;

// The words of the columns: those of the processes, then a block for each stream, whose drains begin in the first at `DRAINS`.
const DRAINS: usize = SPANS + PROCESSES;

pub const COLUMNS: usize = SPANS + STREAMS * BLOCK;

// What the rows need beside the columns: the number of rows to fill, the loops and the process space.
#[derive(Clone, Copy)]
pub struct Shape {
    pub rows: usize,
    pub nest: Nest,
    pub space: Extent,
}

// The words of all streams at one process, the first stream's at word k.
fn by_stream(words: &[u32; COLUMNS], k: usize) -> [u32; 6]
    requires { k + 5 * (2 * gauge_limits.processes) < column_words }
    ensures { result ≡ by_stream words.now k }
{
    std::array::from_fn(|i| words[k + i * BLOCK])
}

// The row of process p.
pub fn row_at(shape: Shape, words: &[u32; COLUMNS], p: usize) -> Row
    requires { Readable shape words.now p }
    ensures { result ≡ row_from shape words.now p }
{
    Row {
        point: layout::point_at(shape.space, p as u32),
        count: words[p],
        first: layout::first_at(words, p),
        last: layout::instance_numbered(shape.nest, words[LASTS + p]),
        soak: by_stream(words, SPANS + p),
        drain: by_stream(words, DRAINS + p),
    }
}
