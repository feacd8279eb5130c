// Numbers that are drawn: each is a function of its place, so that no generator is handed on.
ghost use Rattle.std.specs.Prelude.{◌≡◌, ◌+◌, ◌^◌, ◌<◌, ◌≤◌, ◌++◌, ◌∷◌, [], IfOk, OnOk};
ghost use Rattle.trial_instances.specs.Numbers.{number, numbers, repeated};

use decision_model::Amounts;
use fraction128::Memory;
use rand_core::utils::NextWord;
use rand_pcg::Lcg64Xsh32;
use std::alloc::Global;

/// Appends an item.
pub(crate) fn push<T: Drop>(items: &mut Vec<T>, item: T) -> Result<(), Memory>
    ensures { OnOk result (items.new.items ≡ items.old.items ++ item ∷ []) }
{
    items.push(item)?;
    Ok(())
}

/// The number from `least` to `most` at a place of the words that a trial's number starts, from 0.
#[tactic(auto, using(crate::proofs::Words::advance_words, crate::specs::NumberFacts::number_in_range), unfolding(crate::specs::Numbers::number))]
pub(crate) fn number(trial: u32, place: u64, least: u64, most: u64) -> u64
    requires ordered { least ≤ most }
    requires small { most < 2 ^ 32 }
    ensures value { result ≡ number trial place least most }
{
    let mut words = Lcg64Xsh32::new(u64::from(trial), 1);
    words.advance(place);
    let word = u64::from(words.next_word());
    least + ((word * (most - least + 1)) >> 32)
}

/// So many numbers, from a place on.
#[tactic(auto, using(crate::specs::NumberFacts::numbers_none, crate::specs::NumberFacts::numbers_more))]
pub(crate) fn numbers(
    alloc: Global,
    trial: u32,
    place: u64,
    count: u64,
    least: u64,
    most: u64,
) -> Result<Amounts, Memory>
    requires ordered { least ≤ most }
    requires small { most < 2 ^ 32 }
    requires within { place + count < 2 ^ 64 }
    ensures { IfOk result (λ amounts. amounts ≡ numbers trial place count least most) }
{
    let mut amounts = Vec::new(alloc);
    for passed in 0..count {
        push(&mut amounts, number(trial, place + passed, least, most))?;
    }
    Ok(Amounts::new(amounts))
}

/// One amount, so many times.
#[tactic(auto, unfolding(crate::specs::Numbers::repeated))]
pub(crate) fn repeated(alloc: Global, count: usize, amount: u64) -> Result<Amounts, Memory>
    ensures { IfOk result (λ amounts. amounts ≡ repeated count amount) }
{
    Ok(Amounts::new(vec![in alloc; amount; count]?))
}
