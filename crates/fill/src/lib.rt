// The call Fill, request 2.3: the first places of a list get the states after the rounds from a seed.
//
// specs/, by file:
//
//   Call      what it answers and leaves, by its refusal

#![tactic(auto)]

ghost use Rattle.std.specs.Prelude.{◌≡◌, suc, ◌≤◌, length};
ghost use Rattle.integers.specs.Fill.{fill_by};
ghost use Rattle.refusals.specs.Numbers.{refusal_number, numbered};
ghost use Rattle.meaning.specs.Tests.{refusal};
ghost use Rattle.meaning.specs.Generator.{after, fill_tests, fill};

use refusals::Refusal;

// 29 for seed zero, then 31 for a list that is short.
#[tactic(auto, unfolding(meaning::specs::Tests::refusal))]
fn refusal(seed: u32, n: usize, list: &[u32]) -> Result<(), Refusal>
    ensures { refusal_number result ≡ refusal (fill_tests seed n list.now) }
{
    if seed == 0 {
        return Err(Refusal::Seed);
    }
    if list.len() < n {
        return Err(Refusal::Room);
    }
    Ok(())
}

// The states after rounds 1, 2 and so on.
fn fill_places(seed: u32, n: usize, list: &mut [u32])
    requires { n ≤ length list.old }
    ensures { list.new ≡ fill_by (λ i. after (suc i) seed) n list.old }
{
    let mut state = seed;
    for i in 0..n {
        let next = generator::next(state);
        list[i] = next;
        state = next;
    }
}

// Fill: the first n places; the rest stays.
pub fn fill(seed: u32, n: usize, list: &mut [u32]) -> Result<(), Refusal>
    ensures { (numbered result ≡ (fill seed n list.old).answer) × (list.new ≡ (fill seed n list.old).list) }
{
    refusal(seed, n, list)?;
    fill_places(seed, n, list);
    Ok(())
}
