// Refusal 17: the search along the walk for an element that no instance touches.
//
// specs/, by file:
//
//   Touched   the search for a number that is not among those passed, with marks
//   Search    `refusal_is`: the search along the walk is refusal 17; `too_many`: more elements than instances

#![tactic(auto)]

ghost use Rattle.std.specs.Prelude.{◌≡◌};
ghost use Rattle.untouched.specs.Touched.{Misses};
ghost use Rattle.untouched.specs.Search.{number_on, Numberable, Searching};

use counting::Form;

// The number of the element that instance k of the walk touches.
fn number_at(f: Form, walk: &[i8], k: usize) -> usize
    requires { Numberable f walk.now k }
    ensures { result ≡ number_on f walk.now k }
{
    counting::number_by(f, walk::instance_at(walk, k)) as usize
}

// Whether some element of the box is touched by no instance of the walk; f gives each instance the number of its element. For each element
// in turn the search goes on along the walk from where it stopped, marking the elements that it passes, until this one is marked or the
// walk is over.
pub fn untouched(
    f: Form,
    walk: &[i8],
    instances: usize,
    elements: usize,
    marks: &mut [bool],
) -> bool
    requires { Searching f walk.now instances elements marks.old }
    ensures { Misses (number_on f walk.now) instances elements result }
{
    let mut found = false;
    let mut k = 0;
    'elements: for q in 0..elements {
        // A search, in the form that document 01 names: it goes on from where it stopped, so no range counts it.
        while !marks[q] {
            if k == instances {
                found = true;
                break 'elements;
            }
            marks[number_at(f, walk, k)] = true;
            k += 1;
        }
    }
    found
}
