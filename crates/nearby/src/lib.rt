// After a step only the steps near it can have changed their readiness. Theory only: nothing here runs.
//
//   Looks    `guard-same`: one more of a counter that a guard does not look at changes nothing for it
//   Nearby   `counter`, the word that a step counts up; `foreign`, the one word of a neighbour that its readiness looks at; `Own`, the
//            steps of the same pipe end or process; `stays`: after a ready step a, a step that is none of a's own and whose foreign word a
//            does not count up is ready exactly if it was; `counter-below`
//   Apart    `foreign_below`, `foreign-apart`: the foreign words of steps that move an element are words of the state, and different ones

#![tactic(auto)]

pub fn one() -> usize {
    1
}
