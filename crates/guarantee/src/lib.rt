// The three demands, as meaning states them, with nothing assumed. Theory only: nothing here runs.
//
//   demand 1           Demand1: `demand-one`: numbers and values of answers, nothing changed by a declined call, no word beyond the named
//                      length; Beyond: `step-beyond`, `run-beyond`: Step and Run keep what stands past the words that Accept counts, on any
//                      memory
//   demand 2           Acceptance: `accepted-exactly` and `refused-exactly`: Accepted where all conditions are met, else the number of the
//                      first that fails; `accepted-not-refused`; `some-stream`
//                      Demand2: `demand-two`: what Table leaves, that every pass of the loops is run by one processor, and what Plain run
//                      leaves, for every description that Accept accepts; TableRows: `table-says`; its mathematics is in `geometry`
//   demand 3           Guarantee: `guarantee`: for every start that is not declined and every list of calls after it, each told any limits
//   two limits         Alike: `same-refusal`: every call answers and leaves the same where the refusals are the same; `serves`: told other
//                      limits, a call is declined and changes nothing, or does the same
//   the wiring         Wired: `wired`: the array of an accepted description is wired as the network asks; `wired-instances`,
//                      `wired-instance`, `wired-touched`, `wired-number`: its instances and elements are those of the plain run
//
// Acceptance, Demand2, TableRows and `same-refusal` are in specs/, the others of these in proofs/.
//
// Beneath Acceptance: Refusals (tests in order against conditions in order), WordConditions (1 to 4), NestConditions (5 to 10, and 11 and
// 12, which say of an index map what 7 and 8 say of place), StreamConditions (13 to 17).
//
// Its other parts: Instances (by number, with process and firing), Stops (pipes, stops and elements by number), Ranks (which stops keep),
// Touches (which elements instances touch, and in which order), Elements (the range of a stream's numbers), Times (steps as times). Sums is
// what these use. No theorem but the two of Acceptance speaks of what a limit is.

#![tactic(auto)]

pub fn one() -> usize {
    1
}
