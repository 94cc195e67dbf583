//! The prefix that all names of a list share.

ghost use Rattle.std.specs.Prelude.{◌≡◌, ◌≤◌, ◌<◌, ℕ, length, slice_index};
ghost use Rattle.gather.specs.SharedStarts.{AllBegin, BeginsWith};

/// How many bytes at the start of two names are the same.
fn count_shared(one: &[u8], other: &[u8]) -> usize
    ensures within { (result ≤ length one.now) × (result ≤ length other.now) }
    ensures same { (k : ℕ) → k < result → slice_index one.now k ≡ slice_index other.now k }
{
    let mut count = 0;
    while count < one.len() && count < other.len() && one[count] == other[count] {
        count += 1;
    }
    count
}

/// The prefix that two names share.
fn shared<'a>(one: &'a [u8], other: &[u8]) -> &'a [u8]
    ensures one { BeginsWith result.now one.now }
    ensures other { BeginsWith result.now other.now }
{
    if other.starts_with(one) {
        return one;
    }
    &one[..count_shared(one, other)]
}

/// The prefix that all names share.
pub(crate) fn shared_start<'a>(names: &[&'a [u8]]) -> &'a [u8]
    ensures { AllBegin result.now names.now }
{
    let mut start: &[u8] = match names.first() {
        Some(first) => first,
        None => return &[],
    };
    for name in names {
        start = shared(start, name);
    }
    start
}
