// The geometry of an accepted description. Theory only: nothing here runs. The lemmas are numbered as in docs/PROMISES.md: L for lattice
// facts, G for geometry.
//
//   increment, lines   Lines: `line-is`, `line-steps`, `line-shortest`, `line-unique`; `not-sent` (L4), `one_line` (L5), `coordinates`,
//                      `determined` (G3); of a stream: `passes`, `still-line` of Pipes
//   instances          Instances: `within_in`, `in_within`, `distinct`, `number-earlier`, `earlier-number`: the points in the bounds, in
//                      order; `instances-length`: how many
//   processes          Segments: `segment`, `numbered`, `instance` (G1); Processes: `instance-firing`, `firing-instance`, .. (G2);
//                      Firings: `runs-are`; Passes: `every-pass`: every pass of the loops is run by one processor; Counts: `counts-total`;
//                      Walk: `whole-walk`: process by process every instance once
//   boxes              Boxes: `inside-points`, `points-sorted`, `box-basis`, `box-least`; RowOrder: `row_at`, `row_number`, `numbers-rise`
//   pipes              Pipes: `one-pipe` (G4), `same-pipe`, `on_in`, `in_on`, `no-pipe`; Positions: `pipe-at`, `pipe-next`, `before_at`
//   elements           Moving: `pipe-line` (G5); Elements: `entry-before`, `home-in`, `home-is`, `pipes-total`, `home-element`,
//                      `waiting-number`, `number-waiting` (G7); over all streams PipeOrder; PipeLists: `pipe-elements`, `pipe-ends`,
//                      `soaks`: as demand 2 speaks of them
//   soak and drain     Soaks: `soak-first`, `drain-last`; of a moving stream `soak-is`, `drain-is`, `element-at`, `total-is` (G5), of a
//                      stationary one `soak-rank`, `still-total` (G6)
//   the clock          Clock: `clock` (G8)
//   written order      Order: `step-earlier`, `earlier_step`, `written-moving`, `written-still` (G9); Ends: `first-met`, `last-met`: a
//                      process's first and last instance are those met first and last, or last and first
//   the report         Report: equations (3), (4), (8), (9), (10); (2) is `box-basis` of Boxes
//   two loops          TwoLoops: that the padded third loop changes nothing
//   divisors           Divisors: those of a description's streams in their list
//   from Accept        Descriptions: `walk-tests`, `walk-layout`: what the refusals 33 and 1 to 10 leave; `laid`: what all leave
// limits             UpTo: `up_to_lem`: what is accepted under some limits is accepted under higher ones; `by-gauge`, `by-board`: under the
//                      gauge's
//   for the network    Wiring: `wired`, `flowing`, `keeping`, `meeting`; Arrays: `pipe-is`, `pipe-of`, `through`, `place-on`
//
// Sorting, Best, Numbers, Places, Reach and BoxLines are what these use; Tests is for the crates above. No theorem uses that an increment's
// components lie in −1 to 1, nor, but for those of UpTo, a limit.

#![tactic(auto)]

pub fn one() -> usize {
    1
}
