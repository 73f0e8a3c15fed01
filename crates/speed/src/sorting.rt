ghost use Rattle.std.specs.Prelude.{◌≡◌, ◌/◌, ◌<◌, IsPermutation, IsSorted, length, slice_index};
ghost use Rattle.std.specs.Ordering.{nat_cmp};

/// The median of some figures, which are sorted for it.
pub fn median(figures: &mut [u64]) -> u64
    requires { 0 < length figures.old }
    ensures permutation { IsPermutation figures.old figures.new }
    ensures sorted { IsSorted nat_cmp figures.new }
    ensures middle { result ≡ slice_index figures.new (length figures.new / 2) }
{
    figures.sort_unstable();
    figures[figures.len() / 2]
}
