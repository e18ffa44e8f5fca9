// Instances and row numbers counted on: the first instance and the one after another, the row number of an instance's image as a form of
// the instance, and the table of the images' row numbers: for place the numbers of the processes, for an index map those of the elements.
//
// specs/, by file:
//
//   Course      the instances counted on: `reached`
//   Forms       a row number as a form of the instance: `form-number`
//   Strides     row numbers counted on by the loops' strides: `counted-by`
//   Numbers     the table of row numbers

#![tactic(auto)]

ghost use Rattle.std.specs.Prelude.{◌≡◌, List, ◌++◌, ℕ, ◌+◌, ◌*◌, ◌≤◌, ◌+ℤ◌, ◌*ℤ◌, length, drop};
ghost use Rattle.integers.specs.Differences.{Abs, up};
ghost use Rattle.integers.specs.Fill.{fill_by};
ghost use Rattle.meaning.specs.Loops.{instances};
ghost use Rattle.vectors.specs.Within.{Within, Within2, Rows};
ghost use Rattle.numbering.specs.Ranges.{Bounded};
ghost use Rattle.numbering.specs.Extents.{Spanning, boxed};
ghost use Rattle.counting.specs.Course.{Runs, course_of, next_of};
ghost use Rattle.counting.specs.Forms.{Light, Numbers, weigh, form_of, form_at};
ghost use Rattle.counting.specs.Strides.{strides, RowFits, Agrees, PlaneFits, AgreesAll};
ghost use Rattle.counting.specs.Numbers.{Fillable, numbers_of};

use integers::{Matrix, V2, V3};
use meaning::Nest;
use numbering::Extent;

// Where each loop begins and ends, and which way it runs.
#[derive(Clone, Copy)]
pub struct Course {
    pub first: V3,
    pub last: V3,
    pub direction: V3,
}

// A row number as a form of the instance: so much for each index, less a base.
#[derive(Clone, Copy)]
pub struct Form {
    pub weight: V3,
    pub base: i32,
}

// The course of the loops.
pub fn course_of(n: Nest) -> Course
    requires { Bounded n }
    ensures { (result ≡ course_of n) × (Runs result) }
{
    Course {
        first: numbering::corner(n.direction, n.left, n.right),
        last: numbering::corner(n.direction, n.right, n.left),
        direction: n.direction,
    }
}

// The instance after x in the written order; of the last one, no instance.
pub fn next(c: Course, x: V3) -> V3
    requires { (Runs c) × (Within 64 x) }
    ensures { result ≡ next_of c x }
{
    if x.z == c.last.z {
        if x.y == c.last.y {
            V3 {
                x: x.x + c.direction.x,
                y: c.first.y,
                z: c.first.z,
            }
        } else {
            V3 {
                x: x.x,
                y: x.y + c.direction.y,
                z: c.first.z,
            }
        }
    } else {
        V3 {
            x: x.x,
            y: x.y,
            z: x.z + c.direction.z,
        }
    }
}

// Columns times the one and the other.
fn weight_of(columns: i32, top: i32, low: i32) -> i32
    requires { (Abs columns 1537) × (Abs top 768) × (Abs low 768) }
    ensures { result ≡ columns *ℤ top +ℤ low }
{
    columns * top + low
}

// The row number of an instance's image in a box, as a form of the instance.
pub fn form_of(m: Matrix, e: Extent) -> Form
    requires { (Rows 4 m) × (Spanning (boxed e)) }
    ensures { result ≡ form_of m (boxed e) }
{
    let columns = (numbering::distance(e.lo.b, e.hi.b) + 1) as i32;
    Form {
        weight: V3 {
            x: weight_of(columns, m.top.x, m.low.x),
            y: weight_of(columns, m.top.y, m.low.y),
            z: weight_of(columns, m.top.z, m.low.z),
        },
        base: weight_of(columns, e.lo.a, e.lo.b),
    }
}

// By how much a vector changes the row numbers in a box.
pub fn stride_of(e: Extent, v: V2) -> i32
    requires { (Spanning (boxed e)) × (Within2 4800 v) }
    ensures { result ≡ weigh (boxed e) v.a v.b }
{
    (numbering::distance(e.lo.b, e.hi.b) + 1) as i32 * v.a + v.b
}

// The number that a form gives an instance.
pub fn number_by(f: Form, x: V3) -> u32
    requires { Numbers f x }
    ensures { result ≡ up (form_at f x) }
{
    (f.weight.x * x.x + f.weight.y * x.y + f.weight.z * x.z - f.base) as u32
}

// What a form gains by a turn of each loop.
fn strides_of(f: Form, direction: V3) -> V3
    requires { (Light f) × (Within 1 direction) }
    ensures { (result ≡ strides f direction) × (Within 6916 result) }
{
    V3 {
        x: f.weight.x * direction.x,
        y: f.weight.y * direction.y,
        z: f.weight.z * direction.z,
    }
}

// So many numbers, each a stride after the one before, from place `from` on.
fn put_row(out: &mut [u32], from: usize, count: u32, first: i32, stride: i32)
    requires { (RowFits count first stride) × (from + count ≤ length out.old) }
    ensures { (length out.new ≡ length out.old)
        × ((f : ℕ → ℕ) (xs : List ℕ) → Agrees f from count first stride → out.old ≡ fill_by f from xs
        → out.new ≡ fill_by f (from + count) xs) }
{
    let mut number = first;
    for k in 0..count {
        out[from + k as usize] = number as u32;
        number += stride;
    }
}

// So many rows of them, the first numbers of the rows a stride of their own apart.
fn put_plane(out: &mut [u32], from: usize, rows: u32, count: u32, first: i32, strides: V3)
    requires { (PlaneFits rows count first strides) × (from + rows * count ≤ length out.old) }
    ensures { (length out.new ≡ length out.old)
        × ((f : ℕ → ℕ) (xs : List ℕ) → AgreesAll f from rows count first strides → out.old ≡ fill_by f from xs
        → out.new ≡ fill_by f (from + rows * count) xs) }
{
    let mut number = first;
    let mut at = from;
    for j in 0..rows {
        put_row(out, at, count, number, strides.z);
        number += strides.y;
        at += count as usize;
    }
}

// The row numbers of the images of all instances, in the written order; e is the box around the images. What lies past them stays.
pub fn fill_numbers(n: Nest, m: Matrix, e: Extent, out: &mut [u32])
    requires { Fillable n m e out.old }
    ensures { out.new ≡ numbers_of n m ++ drop (length (instances n)) out.old }
{
    let turns = numbering::turns_of(n);
    let form = form_of(m, e);
    let first = numbering::corner(n.direction, n.left, n.right);
    let strides = strides_of(form, n.direction);
    let rows = turns.middle;
    let count = turns.inner;
    let plane = (rows * count) as usize;
    let mut number = number_by(form, first) as i32;
    let mut at = 0;
    for i in 0..turns.outer {
        put_plane(out, at, rows, count, number, strides);
        number += strides.x;
        at += plane;
    }
}
