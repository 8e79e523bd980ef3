//! Which unflushed writes a cut keeps.
ghost use Rattle.std.specs.Prelude.{◌≡◌, ◌==◌};
ghost use Rattle.std.specs.List.{list_any};
ghost use Rattle.medium.specs.Writes.{kept_by};

/// Which unflushed writes outlive a cut. They are numbered from 0 in order of issue.
#[derive(Debug, Drop)]
pub enum Kept {
    None,
    All,
    /// Numbers in any order. A number that does not exist has no effect, nor has one said twice.
    These(Vec<u32>),
    /// The write with number i where bit i is set, counted from the lowest. None from 64 on.
    Mask(u64),
}

impl Kept {
    ghost use Rattle.medium.specs.Writes.{keeps};

    /// Whether the write of this number is kept.
    pub(crate) fn keeps(&self, number: usize) -> bool
        ensures { result ≡ keeps self.now number }
    {
        match self {
            Kept::None => false,
            Kept::All => true,
            Kept::These(numbers) => is_among(numbers, number),
            Kept::Mask(mask) => is_set(*mask, number),
        }
    }
}

fn is_among(numbers: &[u32], number: usize) -> bool
    ensures { result ≡ list_any (λ n. n == number) numbers.now }
{
    numbers.iter().any(|n| *n as usize == number)
}

// Whether the bit of this number is set in a mask.
fn is_set(mask: u64, number: usize) -> bool
    ensures { result ≡ list_any (λ n. n == number) (kept_by mask) }
{
    number < 64 && mask >> number & 1 == 1
}
