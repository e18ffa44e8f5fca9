// Request 2.10: the theory of the step vectors and of what Accept answers to them. Theory only: nothing here runs.
//
//   Vectors   `vectors-are`: the vectors with entries from −k to k, each once, (2k + 1) to the power r of them; `vector-at`: their places
//   Counts    how many answers are a: as vectors that get it, one answer more, and all `together`
//   Replaced  `replaced`: the bytes of a description with other step coefficients, its words, and what it decodes to
//   Turning   another step turns a line or leaves it: `stream-answer`, what Accept answers of a stream by its line as it was
//   Answers   `answer-is`: Accept's answer to a vector is by 8, 10 and the streams; `possible`: the answers that there are

#![tactic(auto)]

pub fn one() -> usize {
    1
}
