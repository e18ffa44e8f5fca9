// Laws of lists and of tests of their members, for every other crate. Theory only: nothing here runs.
//
//   Members   what is in a list: of members that pass a test, of lists mapped, joined and reversed, and of numbers in a row
//   Tests     tests of two parts; what `any`, `position` and `filter` say of the members that pass one
//   Rows      numbers in a row: what a function makes of them, and whether all, some, or which first of them passes a test
//   Sums      sums over lists: of their first members, joined, mapped, and over numbers in a row
//   Loops     tests of numbers and of members, as a loop makes them that stops at the first answer
//   Stores    a list of one value, and the values that `scatter` puts
//   Fills     the first places of a list, stored by a loop
//   Bytes     words as bytes, read again as written

#![tactic(auto)]

pub fn one() -> usize {
    1
}
