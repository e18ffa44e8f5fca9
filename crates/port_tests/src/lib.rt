// Document 01's conditions of take and give over the numbers of a port: whether an element can be taken or given, and where it goes or
// stands. In specs/, Allowed has them as definitions.

#![tactic(auto)]

ghost use Rattle.std.specs.Prelude.{◌≡◌, ◌<◌};
ghost use Rattle.port_tests.specs.Allowed.{takes, takes_to, passes, releases, gives, gives_from};

use ports::Port;

// Whether an element can be taken: n stand in the link, x were taken and y given.
#[tactic(auto, unfolding(crate::specs::Allowed::takes))]
pub fn takes(keeps: bool, n: usize, x: usize, y: usize) -> bool
    requires { y < 4294967296 }
    ensures { result ≡ takes keeps n x y }
{
    0 < n && if keeps { x == 0 || x == y + 1 } else { x == y }
}

// Where the next element goes, counted from `at`: the first of a stationary stream to the keep, any other to the hand.
#[tactic(auto, unfolding(crate::specs::Allowed::takes_to))]
pub fn takes_to(keeps: bool, x: usize) -> usize
    ensures { (result ≡ takes_to keeps x) × (result < 4) }
{
    if keeps && x == 0 { 3 } else { 2 }
}

// Whether a process that keeps no element can give one: it is in hand, and it is soaked, drained or used.
#[tactic(auto, unfolding(crate::specs::Allowed::passes))]
fn passes(soak: usize, count: usize, x: usize, y: usize, f: usize) -> bool
    requires { (soak < 4294967296) × (count < 4294967296) × (y < 4294967296) × (f < 4294967296) }
    ensures { result ≡ passes soak count x y f }
{
    x == y + 1 && (y < soak || soak + count <= y || y < soak + f)
}

// Whether a process that keeps an element can give one: another is in hand, or the keep is left after all firings and all other elements.
#[tactic(auto, unfolding(crate::specs::Allowed::releases))]
fn releases(total: usize, count: usize, x: usize, y: usize, f: usize) -> bool
    requires { y < 4294967296 }
    ensures { result ≡ releases total count x y f }
{
    x == y + 2 || x == y + 1 && x == total && f == count
}

// Whether an element can be given: n stand in the link, x were taken and y given, and f instances have fired.
#[tactic(auto, unfolding(crate::specs::Allowed::gives))]
pub fn gives(k: Port, n: usize, x: usize, y: usize, f: usize) -> bool
    requires { (k.soak < 4294967296) × (k.count < 4294967296) × (y < 4294967296) × (f < 4294967296) }
    ensures { result ≡ gives k n x y f }
{
    n < k.hop
        && if k.keeps {
            releases(k.total, k.count, x, y, f)
        } else {
            passes(k.soak, k.count, x, y, f)
        }
}

// Where the next element to give stands, counted from `at`: the keep where it is the only one left, else the hand.
#[tactic(auto, unfolding(crate::specs::Allowed::gives_from))]
pub fn gives_from(keeps: bool, x: usize, y: usize) -> usize
    requires { y < 4294967296 }
    ensures { (result ≡ gives_from keeps x y) × (result < 4) }
{
    if keeps && x == y + 1 { 3 } else { 2 }
}
