// Worked cases of whole runs, stopped on the way and carried on, computed from the definitions. Apart from `cases`, so that the two are
// computed side by side. Theory only: nothing here runs.
//
//   Runs              states stopped in the middle, and other orders
//   GuardedRuns       runs under guards, plainly and in two orders

#![tactic(auto)]

pub fn one() -> usize {
    1
}
