// The abstract network, over numbers alone: what counters, values and due times do, and the claims of demand 3 for every reached state.
// Nothing here knows of a description. Theory only; what it says is in specs/.
//
//   Counters    stops, steps, rules and the counter invariant; `inv-step`: every granted step keeps it; `all-put`, `all-get`: all out, all
//               done
//   Sound       what is asked of any state; `sound-step`: every granted step keeps it; `inv-sound`: the invariant implies it
//   Waits, Due, Descent, Clock
//               what an occurrence waits for is due earlier; `progress`: some step is ready until all is out; `in-time`; the due times
//   Values      the value invariant; `valued-fire`; Turns: `in-turn`, the order of firings at a written element
//   Ranks       the order in which elements pass a link; `apart`: every element is in one place
//   Words, Firing
//               what the words are by counters and values; `stored-move`, `stored-fire`: every granted step keeps that
//   System, Good
//               what geometry knows of a network; the invariant of demand 3, `good-step`
//   Claims      stretch, ready, finish for every reached state
//
// Cases is what these use.

#![tactic(auto)]

pub fn one() -> usize {
    1
}
