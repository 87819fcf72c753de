// The places for the answers to a list of calls.
use game::refusal::Refusal;

// What stands in each place beforehand: no call by itself is refused so.
pub const UNTOUCHED: Refusal = Refusal::ShortBuffer;

// How many places nothing was written to.
pub fn count_untouched<T>(answers: &[Result<T, Refusal>]) -> usize {
    answers
        .iter()
        .filter(|answer| matches!(answer, Err(UNTOUCHED)))
        .count()
}
