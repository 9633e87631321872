//! Numbers of a table.

use crate::fault::Fault;
use std::alloc::Global;

/// The number that a word spells.
pub fn number(word: &str) -> Result<u64, Fault> {
    match word.parse::<u64>() {
        Ok(number) => Ok(number),
        Err(_) => Err(Fault::BadNumber),
    }
}

/// The number of bytes or lines that a word spells.
pub fn count(word: &str) -> Result<usize, Fault> {
    Ok(number(word)? as usize)
}

/// The number below 256 that a word spells.
pub fn byte(word: &str) -> Result<u8, Fault> {
    let number = number(word)?;
    if number >= 1 << 8 {
        return Err(Fault::BadNumber);
    }
    Ok(number as u8)
}

/// The number with a sign that a word spells.
pub fn signed(word: &str) -> Result<i64, Fault> {
    match word.parse::<i64>() {
        Ok(number) => Ok(number),
        Err(_) => Err(Fault::BadNumber),
    }
}

/// The number as one of 32 bits.
pub fn narrow(number: u64) -> Result<u32, Fault> {
    if number >= 1 << 32 {
        return Err(Fault::BadNumber);
    }
    Ok(number as u32)
}

/// The numbers that words spell.
pub fn numbers(alloc: Global, words: &str) -> Result<Vec<u64>, Fault> {
    let mut numbers = Vec::new(alloc);
    for word in words.split_whitespace() {
        numbers.push(number(word)?)?;
    }
    Ok(numbers)
}

/// The numbers that words spell, which are `N`.
pub fn exactly<const N: usize>(words: &str) -> Result<[u64; N], Fault> {
    let mut numbers = [0; N];
    let mut words = words.split_whitespace();
    for place in 0..N {
        numbers[place] = number(words.next().ok_or(Fault::BadNumber)?)?;
    }
    if words.next().is_some() {
        return Err(Fault::BadNumber);
    }
    Ok(numbers)
}

/// The numbers that words spell, each of 32 bits.
pub fn narrow_numbers(alloc: Global, words: &str) -> Result<Vec<u32>, Fault> {
    let mut numbers = Vec::new(alloc);
    for word in words.split_whitespace() {
        numbers.push(narrow(number(word)?)?)?;
    }
    Ok(numbers)
}
