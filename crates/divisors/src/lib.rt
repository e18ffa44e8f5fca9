// The divisors that Accept answers beside the figures, of place and of each stream (request 2.7), as the survey has them.

#![tactic(auto)]

ghost use Rattle.std.specs.Prelude.{◌≡◌, ◌<◌};
ghost use Rattle.meaning.specs.Accept.{stream_divisor, divisors};

use meaning::Divisors;
use survey::Survey;

// The divisor of stream i, 0 past the streams in use.
fn stream_divisor(v: Survey, i: u32) -> u32
    requires { i < 6 }
    ensures { result ≡ stream_divisor v.description i }
{
    if i < v.description.sizes.streams {
        let f = survey::flow_at(v.flows, i as usize);
        f.divisor
    } else {
        0
    }
}

// The divisors of place and of the six streams.
pub fn divisors_of(v: Survey) -> Divisors
    ensures { result ≡ divisors v.description }
{
    Divisors {
        place: v.loops.divisor,
        stream0: stream_divisor(v, 0),
        stream1: stream_divisor(v, 1),
        stream2: stream_divisor(v, 2),
        stream3: stream_divisor(v, 3),
        stream4: stream_divisor(v, 4),
        stream5: stream_divisor(v, 5),
    }
}
