// The limits that a board word names, request 2.9.

#![tactic(auto)]

ghost use Rattle.std.specs.Prelude.{◌≡◌};
ghost use Rattle.meaning.specs.Limits.{limits_of, gauge_limits, UpTo};

use meaning::{BENCH_INSTANCES, BENCH_PROCESSES, GAUGE_INSTANCES, GAUGE_PROCESSES, HOP, Limits};

// The limits of a board, the gauge 0 or the bench 1; another word, which no call accepts, has the gauge's.
pub fn limits_of(board: u32) -> Limits
    ensures { (result ≡ limits_of board) × (UpTo result gauge_limits) }
{
    if board == 1 {
        return Limits {
            board,
            instances: BENCH_INSTANCES,
            processes: BENCH_PROCESSES,
            hop: HOP,
        };
    }
    Limits {
        board,
        instances: GAUGE_INSTANCES,
        processes: GAUGE_PROCESSES,
        hop: HOP,
    }
}
