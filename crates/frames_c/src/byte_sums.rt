//! Sums of bytes.

ghost use Rattle.std.specs.Prelude.{◌≡◌};
ghost use Rattle.sums.specs.Sums.{sum_from};

use sums::after_word;

/// The sum of bytes, each as a word, after that of the words before.
pub fn bytes_sum(before: u64, bytes: &[u8]) -> u64
    ensures { result ≡ sum_from before bytes.now }
{
    let mut sum = before;
    for byte in bytes {
        sum = after_word(sum, u64::from(*byte));
    }
    sum
}
