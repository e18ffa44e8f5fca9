// The instance that a process runs as its f-th: its first one, and f times the increment on from there. In specs/, Runs says when the
// numbers fit.

#![tactic(auto)]

ghost use Rattle.std.specs.Prelude.{◌≡◌};
ghost use Rattle.meaning.specs.Space.{first};
ghost use Rattle.geometry.specs.Processes.{run_at};
ghost use Rattle.vectors.specs.Within.{Within};
ghost use Rattle.layout.specs.Spans.{process_of};
ghost use Rattle.instances.specs.Runs.{Computes, Runs};

use integers::V3;
use meaning::Nest;

// The first instance of process p.
pub fn first_of(n: Nest, spans: &[u32], p: usize) -> V3
    requires { Computes n spans.now p }
    ensures { (result ≡ first n (process_of n p)) × (Within 64 result) }
{
    layout::first_at(spans, p)
}

// Its instance f, counted from 0.
pub fn instance_of(n: Nest, increment: V3, spans: &[u32], p: usize, f: usize) -> V3
    requires { Runs n increment spans.now p f }
    ensures { result ≡ run_at n (process_of n p) f }
{
    vectors::later(first_of(n, spans, p), increment, f as u32)
}
