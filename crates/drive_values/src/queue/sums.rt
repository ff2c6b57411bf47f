//! Mixed numbers, and one number for many answers.

/// The finalizer of SplitMix64.
pub fn mixed(n: u64) -> u64 {
    let n = (n ^ n >> 30).wrapping_mul(0xbf58_476d_1ce4_e5b9);
    let n = (n ^ n >> 27).wrapping_mul(0x94d0_49bb_1331_11eb);
    n ^ n >> 31
}

/// The sum of answers with one more: 31 times what it was, and the answer. No answer counts as 0, and a number as one
/// more.
pub fn with_answer(sum: u64, answer: Option<u64>) -> u64 {
    let added = match answer {
        Some(number) => number.wrapping_add(1),
        None => 0,
    };
    sum.wrapping_mul(31).wrapping_add(added)
}

/// The same of a pair, which counts as three times its first number and its second.
pub fn with_pair(sum: u64, answer: Option<(u64, u64)>) -> u64 {
    let number = match answer {
        Some(pair) => Some(pair.0.wrapping_mul(3).wrapping_add(pair.1)),
        None => None,
    };
    with_answer(sum, number)
}
