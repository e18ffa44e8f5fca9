// The port table of an accepted description's array: it fits the states and the lists that the description asks for.
// Theory only: nothing here runs.
//
//   Instances   a process's instances by the nest: `count-is`, `count_most`, `instance-is`
//   Sizes       `size_of`, `type_size`; `regular`, `single`: where the array's pipes pass; the bounds on its sizes
//   Fits        `rows_fit`: the rows' words lie in a state; `parts-fit`: the pipes' parts lie in the lists; `on_total`: a row on a pipe has
//               elements
//   Lines       `lines_fit`: the lines fit the registers; `lines_are`: they are the array's

#![tactic(auto)]

pub fn one() -> usize {
    1
}
