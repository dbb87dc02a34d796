// Numbers parted by blanks.
use std::alloc::Global;

pub(crate) fn naturals_of(heap: Global, text: &str) -> anyhow::Result<Vec<u64>> {
    let mut numbers = Vec::new(heap);
    for word in text.split_whitespace() {
        numbers.push(word.parse::<u64>()?)?;
    }
    Ok(numbers)
}

pub(crate) fn integers_of(heap: Global, text: &str) -> anyhow::Result<Vec<i64>> {
    let mut numbers = Vec::new(heap);
    for word in text.split_whitespace() {
        numbers.push(word.parse::<i64>()?)?;
    }
    Ok(numbers)
}

/// The numbers in a row.
pub(crate) fn row_of(heap: Global, numbers: &[i64]) -> anyhow::Result<String> {
    let mut words = Vec::new(heap);
    for number in numbers {
        words.push(number.to_string(heap)?)?;
    }
    Ok(words.as_slice().join(heap, " ")?)
}
