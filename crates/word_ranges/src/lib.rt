// The tests of document 01's refusals 2, 4 and 5, over numbers alone: sizes, the range of a word, which Make draws from too, bounds.

#![tactic(auto)]

ghost use Rattle.std.specs.Prelude.{◌≡◌, not, ◌&&◌, ◌≤◌, leb, pos, is_none, IfSome};
ghost use Rattle.std.specs.Int.Signed.{lt_z};
ghost use Rattle.meaning.specs.Description.{◌to◌, within, line_range, range_at, is_direction, in_range, refused2, refused5};

use decode::FitSizes;
use meaning::{LAST_OPERATION, LINE_WORDS, Nest, Range, Sizes};

// Whether n is outside a to b.
fn outside(a: u32, b: u32, n: u32) -> bool
    ensures { result ≡ not (leb a n && leb n b) }
{
    n < a || b < n
}

// Refusal 2: a size out of range.
fn size_refused(z: Sizes) -> bool
    ensures { result ≡ refused2 z }
{
    outside(2, 3, z.loops) || outside(1, 6, z.streams) || outside(1, 8, z.lines)
}

// Sizes as they fit; none where refusal 2 applies.
pub fn fit(z: Sizes) -> Option<FitSizes>
    ensures same { IfSome result (λ f. f.sizes ≡ z) }
    ensures none { is_none result ≡ refused2 z }
{
    if size_refused(z) {
        return None;
    }
    Some(FitSizes { sizes: z })
}

// Numbers from 0 on.
fn up_to(last: u32) -> Range
    requires { last ≤ 64 }
    ensures { result ≡ (pos 0 to pos last) }
{
    Range {
        least: 0,
        greatest: last as i32,
    }
}

// The range of word j of a line.
fn line_range(z: FitSizes, j: u32) -> Range
    ensures { result ≡ line_range z.sizes j }
{
    match j {
        0 => up_to(LAST_OPERATION),
        1..=3 => up_to(z.sizes.streams + 1),
        4 => up_to(z.sizes.loops - 1),
        5 => up_to(3),
        _ => Range {
            least: -64,
            greatest: 64,
        },
    }
}

// The range of word k, if it is no direction.
pub fn range_at(z: FitSizes, k: u32) -> Range
    ensures { result ≡ range_at z.sizes k }
{
    let r = z.sizes.loops;
    if k < 3 + r + r {
        return Range {
            least: -64,
            greatest: 64,
        };
    }
    if k < 3 + r + r + r + r {
        return Range {
            least: -8,
            greatest: 8,
        };
    }
    if k < z.loading_at(0) {
        return Range {
            least: -4,
            greatest: 4,
        };
    }
    let body = z.line_at(0);
    if k < body {
        return Range {
            least: -1,
            greatest: 1,
        };
    }
    line_range(z, (k - body) % LINE_WORDS)
}

// Whether word k is a direction.
pub fn is_direction(z: FitSizes, k: u32) -> bool
    ensures { result ≡ is_direction z.sizes k }
{
    let direction = 3 + 2 * z.sizes.loops;
    (direction..direction + z.sizes.loops).contains(&k)
}

// Whether a range has a word.
fn covers(r: Range, w: i32) -> bool
    ensures { result ≡ within r w }
{
    r.least <= w && w <= r.greatest
}

// Whether word k is in its range.
pub fn in_range(z: FitSizes, k: u32, w: i32) -> bool
    ensures { result ≡ in_range z.sizes k w }
{
    if is_direction(z, k) {
        return integers::magnitude(w) == 1;
    }
    covers(range_at(z, k), w)
}

// Refusal 5: a left bound above its right.
pub fn bound_refused(n: Nest) -> bool
    ensures { result ≡ refused5 n }
{
    n.right.x < n.left.x || n.right.y < n.left.y || n.right.z < n.left.z
}
