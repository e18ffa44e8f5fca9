// The network proved: demand 3 for every description whose array is wired as geometry has to show. The abstract network stands apart, in
// `abstract_network`. Theory only; what it says is in specs/ and, where no definition rests on it, in proofs/.
//
// The array of a description:
//   Layout, Places
//               `layout`: different live words of a state stand at different places below the number of words; reading after writing
//   WordOrder   `words-stand`: the words of a state stand one after the other; `words-read`: it is what they read; `same-words`
//   Wiring      `net_of`, and the record `Wired` of what geometry has to show; Programs: the program that an array runs; `system_of`
//   Slots       the words by pipe and place, and back; `view-same`, `view-other`; the counters and the words of a state
//   Decide, Ready
//               `ready-exactly`: a step is ready in a sound state exactly if the abstract network may grant it
//   Links, Moving, Gets, Puts, Fires, Parts, Steps
//               the stores of each rule; `step-more`, `step-granted`: a ready step that is done is a granted step of the abstract network;
//               `part-is`, `parts_are`: a pipe's part of the received list, and the whole of it
//   Members, Runs, Outcome
//               lists of granted steps from a cleared state: `reached-all`, `after`: the claims; Count: the granted steps are the sum of
//               the counters
//   States      `says-sound`; `sound-kept`: every granted step keeps a sound state sound, reached or not
//   Kept        `kept`: of lists of granted steps, and that they write to slots only; `written-beyond`: what stands past the words is kept
//   Finish      `final-word`, `finish-words`: when all values are out, every count is its total and every other word 0, whatever the order
//   Calls       `calls-granted`, `calls-leave`: calls do granted steps only, whatever limits each is told, and nothing else changes
//   Declined    `numbers-are`: a call is declined by its tests; `declined`: every call declines what is refused; `usable`: what a call that
//               is not declined was lent;
//               `not-by-memory`: no call is declined by 20, 26, 21 or 22 on a memory that passes the tests, whatever limits it is told
//   Plain       `plain-is`: the plain run on the flat store is the abstract one; the record `Described` of what geometry has to show
//   Figures     `words_are`, `steps-are`: the figures that Accept answers
//   Starts      `proper`, `cleared`: what a start that is not declined leaves; `passes-after`: after any calls the memory passes its tests
//   Results     `result-early`, `result-only-early`, `result-late`: what Result answers; `in-element-order`
//   Beyond      `call-beyond`: no call changes what stands past the words, on any memory
//   Demand      `after-start`: demand 3 after every list of calls, from `Wired` and `Described`; `guarantee`: for every accepted
//               description, from what geometry owes

#![tactic(auto)]

pub fn one() -> usize {
    1
}
