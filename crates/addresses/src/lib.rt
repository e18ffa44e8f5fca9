// Where the words of a process and of a pipe stand in the array of a description that is not refused: what the rules of the network look
// at, by the nest and the streams, so that code can compute it. Theory only: nothing here runs.
//
//   pipes by number    Pipes: `pipe-lt`, `pipe-at`: pipe base i + j is that of stream i's entry j; `stream-on`, `hop-on`, `stops-on`,
//                      `elements-on`, `part-start`
//   a process's pipe   Through: `on-is`, `on-true`, `through-is`, `place_is`, `place-through`; `entry-rank`: the number of its entry
//   its stop there     Ports: `stop_is`, `process-on`, `keeps-is`, `soak-is`, `stream-is`, `hop-is`, `elements-is`; its instances
//                      `count_at`, `instance-at`
//   its links          Ends: before it `put_first`, `put-given`; after it `taken-last`, `taken_next`, `link-last`, `link-next`
//   a pipe's ends      Ends: `taken-entry`, `link-entry`, `put-end`, `link-end`
//   places of words    Indices: `firings-index`, `taken-index`, `sent-index`; `process-count`, `stream-count`, `stride-is`, `word_count`
//   places of elements Orders: `found_at`, `element_place`; the list's length is `list_length` of geometry's PipeOrder

#![tactic(auto)]

pub fn one() -> usize {
    1
}
