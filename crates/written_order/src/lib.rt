// The loops run as written: the instances in the written order, each on the elements that it touches.
//
// specs/, by file:
//
//   Columns     a list in rows of six, filled column by column
//   Places      the numbers of the elements that each instance touches, as a table holds them; `columns-table`, `runnable`
//   Run         the run instance by instance

#![tactic(auto)]

ghost use Rattle.std.specs.Prelude.{◌≡◌, ◌<◌, length, get_or};
ghost use Rattle.integers.specs.Vectors.{zero3};
ghost use Rattle.meaning.specs.Loops.{instances};
ghost use Rattle.meaning.specs.Description.{streams_of};
ghost use Rattle.meaning.specs.Body.{execute, final_values};
ghost use Rattle.meaning.specs.Calls.{length_of};
ghost use Rattle.written_order.specs.Columns.{column};
ghost use Rattle.written_order.specs.Places.{Fitting, Filling, Table, number_from, place, columns};

use integers::V3;
use meaning::{Description, ELEMENTS};
use survey::{Flow, Survey};

// ---- the places of the instances

// Column i of the table: the elements of one stream, whose numbers begin at start, for each of count instances.
fn fill_column(f: Flow, count: u32, start: u32, i: u32, table: &mut [u32; ELEMENTS])
    requires { Filling f count start i }
    ensures { table.new
        ≡ column i (number_from f.nest f.stream.map start) (length (instances f.nest)) table.old }
{
    let form = counting::form_of(f.stream.map, f.elements);
    let course = counting::course_of(f.nest);
    let mut x = course.first;
    for k in 0..count {
        table[(6 * k + i) as usize] = start + counting::number_by(form, x);
        x = counting::next(course, x);
    }
}

// The column of stream i.
fn fill_stream(v: Survey, i: u32, table: &mut [u32; ELEMENTS])
    requires { (Fitting v.description) × (i < v.description.sizes.streams) }
    ensures { table.new
        ≡ column i (place v.description i) (length (instances v.description.nest)) table.old }
{
    let f = survey::flow_at(v.flows, i as usize);
    let start = elements::elements_in(v, i);
    fill_column(f, v.loops.instances, start, i, table);
}

// The columns of all streams: row k then has the elements that instance k touches.
fn fill_table(v: Survey, table: &mut [u32; ELEMENTS])
    requires { Fitting v.description }
    ensures { table.new ≡ columns v.description v.description.sizes.streams table.old }
{
    for i in 0..v.description.sizes.streams {
        fill_stream(v, i, table);
    }
}

// ---- the run

// Instance k, which is x.
fn run_instance(d: Description, k: u32, x: V3, table: &[u32], store: &mut [u32])
    requires { (Fitting d) × (length (streams_of d) ≡ d.sizes.streams) × (Table d table.now) × (k < length (instances d.nest))
        × (length store.old ≡ length_of d) × (x ≡ get_or (instances d.nest) k zero3) }
    ensures { store.new ≡ execute d (get_or (instances d.nest) k zero3) store.old }
{
    let from = 6 * k as usize;
    let to = from + d.sizes.streams as usize;
    body::execute(x, d.lines, d.sizes.lines, store, &table[from..to]);
}

// All instances in the written order.
fn run_instances(v: Survey, table: &[u32], store: &mut [u32])
    requires { (Fitting v.description) × (Table v.description table.now) × (length store.old ≡ length_of v.description) }
    ensures { store.new ≡ final_values v.description store.old }
{
    let course = counting::course_of(v.description.nest);
    let mut x = course.first;
    for k in 0..v.loops.instances {
        run_instance(v.description, k, x, table, store);
        x = counting::next(course, x);
    }
}

// The run of a description's loops, on values in element order.
pub fn run_loops(v: Survey, store: &mut [u32])
    requires { (Fitting v.description) × (length store.old ≡ length_of v.description) }
    ensures { store.new ≡ final_values v.description store.old }
{
    let mut table = [0; ELEMENTS];
    fill_table(v, &mut table);
    run_instances(v, &table, store);
}
