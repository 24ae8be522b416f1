//! The numbers of the flat form, below 2^32, and how they are taken off the words of a line.
ghost use Rattle.std.specs.Prelude.{◌≡◌, ◌^◌, IfOk};
ghost use Rattle.std.specs.Option.{option_copied, option_map};
ghost use Rattle.lucid_texts.specs.Words.{words_left, take_number};
ghost use Rattle.lucid_flat.specs.Words.{three_of, exactly, few_numbers_of};

use lucid_equations::Numbers32;
use lucid_texts::at_end;
use std::alloc::{AllocError, Global};

// All numbers are below it.
const BOUND: u64 = 4_294_967_296;

/// The number that the next word is, and what is left behind it.
pub(crate) fn next_number(rest: Option<&[u8]>) -> Option<(u32, Option<&[u8]>)>
    ensures { option_map (λ x. (x.0, words_left (option_copied x.1))) result ≡ take_number (2 ^ 32) (words_left (option_copied rest.entry)) }
{
    let (n, rest) = lucid_texts::next_number(rest, BOUND)?;
    Some((n as u32, rest))
}

/// One, two or three numbers, as many as the count says; 0 stands for the others.
#[derive(Clone, Copy)]
pub(crate) struct Three {
    pub(crate) first: u32,
    pub(crate) second: u32,
    pub(crate) third: u32,
    pub(crate) count: usize,
}

/// The numbers that the words left are, if they are one, two or three.
#[tactic(auto, unfolding(crate::specs::Words::three_of))]
pub(crate) fn next_three(rest: Option<&[u8]>) -> Option<Three>
    ensures { result ≡ three_of (words_left (option_copied rest.entry)) }
{
    let (first, rest) = next_number(rest)?;
    let mut numbers = Three {
        first,
        second: 0,
        third: 0,
        count: 1,
    };
    if at_end(rest) {
        return Some(numbers);
    }
    let (second, rest) = next_number(rest)?;
    numbers.second = second;
    numbers.count = 2;
    if at_end(rest) {
        return Some(numbers);
    }
    let (third, rest) = next_number(rest)?;
    numbers.third = third;
    numbers.count = 3;
    at_end(rest).then_some(numbers)
}

/// The numbers that the words left are, if they are so many, from one to three.
#[tactic(auto, unfolding(crate::specs::Words::exactly))]
pub(crate) fn exactly(count: usize, rest: Option<&[u8]>) -> Option<Three>
    ensures { result ≡ exactly count (words_left (option_copied rest.entry)) }
{
    let numbers = next_three(rest)?;
    (numbers.count == count).then_some(numbers)
}

/// The numbers that the words left are, fewer than 2^32.
pub(crate) fn all_numbers(
    alloc: Global,
    words: Option<&[u8]>,
) -> Result<Option<Numbers32>, AllocError>
    ensures { IfOk result (λ read. read ≡ few_numbers_of (words_left (option_copied words.entry))) }
{
    let mut numbers = Vec::new(alloc);
    let mut rest = words;
    while !at_end(rest) {
        let Some((n, behind)) = next_number(rest) else {
            return Ok(None);
        };
        if numbers.len() >= u32::MAX as usize {
            return Ok(None);
        }
        numbers.push(n)?;
        rest = behind;
    }
    Ok(Some(Numbers32::from_vec(numbers)))
}
