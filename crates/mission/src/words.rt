ghost use Rattle.std.specs.Prelude.{◌≡◌, ◌<◌, ◌⊎◌, length, IfOk, IfErr};
ghost use Rattle.mission.specs.Words.{parts as parts_of};
ghost use Rattle.mission.specs.declared.fault.Why.TheVariants.{NotNumbers, NotCharge};
ghost use Rattle.std.specs.List.{AllByRecursion};

use crate::fault::{Fault, Why};
use std::alloc::Global;
use std::str::FromStr;

// The value of a word, or what is wrong with the word.
pub fn parsed<T: FromStr>(word: &str, why: Why) -> Result<T, Why>
where
    T::Err: Drop,
    ensures { IfErr result (λ e. e ≡ why) }
{
    word.parse::<T>().map_err(|_| why)
}

pub fn number(word: &str) -> Result<i32, Why>
    ensures { IfErr result (λ e. e ≡ NotNumbers) }
{
    parsed::<i32>(word, Why::NotNumbers)
}

pub fn charge(word: &str) -> Result<u16, Why>
    ensures { IfErr result (λ e. e ≡ NotCharge) }
{
    parsed::<u16>(word, Why::NotCharge)
}

// The numbers of a word such as `900,20`, just as many as are asked for.
pub fn numbers<const N: usize>(form: Why, word: &str) -> Result<[i32; N], Why>
    ensures count { IfOk result (λ _. length (parts_of word.now) ≡ N) }
    ensures fault { IfErr result (λ e. (e ≡ form) ⊎ (e ≡ NotNumbers)) }
{
    let mut parts = word.split(',');
    let mut n = [0; N];
    for x in &mut n {
        *x = number(parts.next().ok_or(form)?)?;
    }
    // counted anew: no invariant of the loop counts the parts
    if word.split(',').count() == N {
        Ok(n)
    } else {
        Err(form)
    }
}

fn gust(count: u8, word: &str) -> Result<u8, Why>
    ensures { IfOk result (λ w. w < count) }
{
    let w = parsed::<u8>(word, Why::NotNumbers)?;
    if w < count { Ok(w) } else { Err(Why::NoGust) }
}

// The gusts of a word such as `0,2,1`, each below the count; none of the empty word.
pub fn gusts<'a>(heap: Global, count: u8, word: &'a str) -> Result<Vec<u8>, Fault<'a>>
    ensures { IfOk result (λ v. AllByRecursion (λ w. w < count) v.items) }
{
    let mut gusts = Vec::new(heap);
    if word.is_empty() {
        return Ok(gusts);
    }
    for part in word.split(',') {
        gusts.push(gust(count, part).map_err(|why| Fault::Word(why, word))?)?;
    }
    Ok(gusts)
}
