// How many elements there are, and the number at which each stream's elements begin: element order is by stream.
//
// specs/, by file:
//
//   Counts      streams of few elements; sums over the first streams
//   Few         `elements-few`: no stream of an accepted description has more elements than there are instances

#![tactic(auto)]

ghost use Rattle.std.specs.Prelude.{◌≡◌, ◌≤◌};
ghost use Rattle.meaning.specs.Limits.{elements_most};
ghost use Rattle.meaning.specs.Description.{streams_of};
ghost use Rattle.meaning.specs.Body.{stream_start};
ghost use Rattle.meaning.specs.Calls.{length_of};
ghost use Rattle.elements.specs.Counts.{Few};

use survey::Survey;

// The elements of the first streams.
pub fn elements_in(v: Survey, count: u32) -> u32
    requires { (Few v.description) × (count ≤ v.description.sizes.streams) }
    ensures { result ≡ stream_start v.description.nest (streams_of v.description) count }
{
    let mut sum: u32 = 0;
    for i in 0..count {
        sum += numbering::size_of(survey::flow_at(v.flows, i as usize).elements);
    }
    sum
}

// The elements of all streams.
pub fn element_count(v: Survey) -> u32
    requires { Few v.description }
    ensures { (result ≡ length_of v.description) × (result ≤ elements_most) }
{
    elements_in(v, v.description.sizes.streams)
}
