// The call Step vectors, request 2.10: how many step vectors with entries from −k to k get each answer of Accept.
//
// specs/, by file:
//
//   Stages    the refusals 33, 34 and 1 to 7 in stages
//   Places    the vector at a place of the list of all of them
//   Tally     the counts as a loop makes them, answer by answer
//   Call      what the call answers and leaves, by its refusal

#![tactic(auto)]

ghost use Rattle.std.specs.Prelude.{◌≡◌, [], ◌+◌, ◌*◌, ◌≤◌, ◌<◌, pos, ◌-ℤ◌, length, get_or};
ghost use Rattle.refusals.specs.Numbers.{refusal_number, numbered};
ghost use Rattle.meaning.specs.Limits.{limits_of};
ghost use Rattle.meaning.specs.Tests.{refusal};
ghost use Rattle.meaning.specs.StepVectors.{vectors, step_vectors};
ghost use Rattle.meaning.specs.HowManyWork.{step_vector};
ghost use Rattle.vectors.specs.Within.{Within};
ghost use Rattle.step_vectors.specs.Stages.{early_tests, ground_tests, Surveying};
ghost use Rattle.step_vectors.specs.Places.{Placed};
ghost use Rattle.step_vectors.specs.Tally.{Tallying, tally_of};

use integers::V3;
use meaning::{ANSWERS, Limits};
use prospect::Prospect;
use refusals::Refusal;
use survey::{Ground, Survey};

// ---- refusals

// 33 for another board, then 34 for another k, then 1 to 5 of the description as lent.
fn early_refusal(board: u32, s: &[u8], k: u32) -> Result<(), Refusal>
    ensures { refusal_number result ≡ refusal (early_tests (limits_of board) s.now k) }
{
    if 1 < board {
        return Err(Refusal::Board);
    }
    if 3 < k {
        return Err(Refusal::Entries);
    }
    refuse_words::refusal(s)
}

// 6 and 7 of the description as lent, which do not look at its step.
fn ground_refusal(g: Ground, limits: Limits) -> Result<(), Refusal>
    ensures { refusal_number result ≡ refusal (ground_tests limits g) }
{
    if refuse_nest::instances_refused(g, limits) {
        return Err(Refusal::Instances);
    }
    if refuse_nest::low_rank(g) {
        return Err(Refusal::PlaceRank);
    }
    Ok(())
}

// The survey of the description at a step of its own, or the refusal of the call.
fn survey_of(board: u32, s: &[u8], k: u32, limits: Limits) -> Result<Survey, Refusal>
    requires { limits ≡ limits_of board }
    ensures { Surveying limits s.now k result }
{
    early_refusal(board, s, k)?;
    let v = prospect::own_survey(decode::description(s));
    ground_refusal(v.loops, limits)?;
    Ok(v)
}

// ---- vectors

// Entry i of those from −k to k.
fn entry(k: u32, i: u32) -> i32
    requires { (k ≤ 3) × (i < 2 * k + 1) }
    ensures { result ≡ (pos i -ℤ pos k) }
{
    i as i32 - k as i32
}

// Vector j of all, the last entry fastest.
fn vector_at(k: u32, loops: u32, j: u32) -> V3
    requires { Placed k loops j }
    ensures { (result ≡ step_vector (get_or (vectors k loops) j [])) × (Within 8 result) }
{
    let width = 2 * k + 1;
    let last = j % width;
    let rest = j / width;
    if loops == 2 {
        V3 {
            x: entry(k, rest),
            y: entry(k, last),
            z: 0,
        }
    } else {
        V3 {
            x: entry(k, rest / width),
            y: entry(k, rest % width),
            z: entry(k, last),
        }
    }
}

// How many there are.
fn vector_count(k: u32, loops: u32) -> u32
    requires { (k ≤ 3) × (2 ≤ loops) × (loops ≤ 3) }
    ensures { (result ≡ length (vectors k loops)) × (result ≤ 343) }
{
    let width = 2 * k + 1;
    if loops == 2 {
        width * width
    } else {
        width * width * width
    }
}

// The place of an answer among the counts.
fn place_of(answer: Result<(), Refusal>) -> usize
    ensures { result ≡ refusal_number answer }
{
    match answer {
        Ok(()) => 0,
        Err(e) => e.number() as usize,
    }
}

// How many of them get each answer.
fn tally(p: Prospect, k: u32, loops: u32) -> [u32; ANSWERS]
    requires { Tallying p k loops }
    ensures { result ≡ tally_of p k loops }
{
    let all = vector_count(k, loops);
    let mut counts = [0u32; ANSWERS];
    for j in 0..all {
        let a = place_of(prospect::answer_to(p, vector_at(k, loops, j)));
        counts[a] += 1;
    }
    counts
}

// ---- the call

// Step vectors: the counts of accepted and of refusals 1 to 17.
pub fn step_vectors(
    board: u32,
    s: &[u8],
    k: u32,
    counts: &mut [u32; ANSWERS],
) -> Result<(), Refusal>
    ensures { (numbered result ≡ (step_vectors (limits_of board) s.now k counts.old).answer)
        × (counts.new ≡ (step_vectors (limits_of board) s.now k counts.old).counts) }
{
    let limits = boards::limits_of(board);
    let v = survey_of(board, s, k, limits)?;
    let p = prospect::prospect_of(v, limits);
    *counts = tally(p, k, v.description.sizes.loops);
    Ok(())
}
