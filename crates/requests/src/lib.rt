// What the requests of document 02 claim of the calls beside the demands. Theory only: nothing here runs.
//
//   2.1   FixedPoint: `fixed-point`: Accept answers every operation from 0 to 6 alike; what met 4 for a 6 alone is answered by what comes
//         after, all else as before; Plain run and the network have it (RunsLoops)
//   2.2   LongerStrides: `longer-strides`: 9 is never given; what was not refused by it is answered as before, what was is answered by what
//         comes after; first and last of Table's rows are the outermost points of the process's own line in the bounds (Outermost)
//   2.3   GeneratedLoad: `generated-load`: which answer Fill and Make give, what they leave, place by place and word by word; equal states
//         after n rounds have equal states before, and no seed comes to 0; what Make makes meets the conditions of 1 to 4; every word drawn
//         is in its range, and every word of its range is drawn
//   2.4   WalkByProcess: `walk-by-process`: what Accept accepts or refuses by 11 to 17 has a walk; a whole walk comes to every instance
//         exactly once and to nothing else, in that order, and is a rearrangement of the instances; Accept with the check along it is
//         Accept
//   2.5   GuardedLines: `guarded-lines`: descriptions of the older length are refused by 3, a guard out of its ranges by 4; Accept answers
//         every guard in its ranges alike; a line of comparison 0 always runs; Plain run and the network run a line only if its index
//         compares so (RunsLoops)
//   2.7   CommonDivisors: `common-divisors`: of an accepted description each divisor in use is the one that the shortening rule takes out,
//         is not 0 and says how far apart the values of its matrix lie; those past the streams in use are 0; working processes lie at
//         values of place
//   2.8   FivePlaces: `five-places`: on every board, what has no moving hop from 6 to 8 is answered as before by every call; what has one
//         is refused by 14 or by what comes before it; no answer of Accept becomes another one than 14
//   2.9   BenchBoard: `bench-board`: another board word is 33 for every call, and no other is; the gauge answers as before; the bench
//         accepts what the gauge accepts and the bench can hold; every call answers and leaves the same on both boards whenever the bench
//         does not refuse, and so for any limits up to others
//   2.10  HowManyWork: `how-many-work`: which answer Step vectors gives; each count is the number of vectors for which Accept, told that
//         board and the step coefficients replaced, answers so, over a list that has each vector once; together they make (2k+1) to the
//         power r, and no answer occurs but 0, 8 and 10 to 17
//
// Beneath 2.1 and 2.5: RunsLoops (`runs-loops`: Plain run writes what the loops leave, line by line, by when it runs and what its operation
// puts; the network finishes with Plain run's values); PlainLoops (`loops-exactly`); Operations (`puts-exactly`) and Guards
// (`runs-exactly`): each operation, and the guard, as a proposition; OtherWords (`answered-alike`: of a line Accept looks at its target and
// at ranges) with AnyOperation and AnyGuard; BodyLines (`Line-of`, `allowed`).
// Beneath 2.1, 2.2 and 2.3: Dropped (`dropped`: a test that Accept once had between its others; where the conditions before it hold, Accept
// answers by those after it).
// Beneath 2.3: Fills (`fills`: every call of Fill), Makes (`makes`: every call of Make).
// Beneath 2.5 and 2.8: Answered (`answered`: Accept's answer with the conditions that it stands for; `same_answer`: conditions that agree
// give one answer; `alike`: then every call answers and leaves the same; `refused-declines`: what Accept refuses every call declines).

#![tactic(auto)]

pub fn one() -> usize {
    1
}
