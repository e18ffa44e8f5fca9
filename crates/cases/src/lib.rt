// Worked cases, computed from the definitions as the single ones in `meaning` are. Apart from `meaning`, so that an edit there does not
// compute them. Theory only: nothing here runs.
//
//   Cases             document 01's cases marked P, as the requests leave them, in one table
//   Slanted           divisors above 1, and a run of a slanted grid
//   Walks             walks beside the written order
//   Boards            what each board holds, another board word, and a run whose calls are told different boards
//   Choices           how many step vectors get each answer, beside the small cases in `meaning`

#![tactic(auto)]

pub fn one() -> usize {
    1
}
