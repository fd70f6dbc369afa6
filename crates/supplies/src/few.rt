// A few numbers: as many as there are, and `N` at most.
ghost use Rattle.std.specs.Prelude.{◌≡◌, ◌≤◌, min, length, take};

// The first `count` of the values, which stands beside the first of them.
#[derive(Clone, Copy)]
pub struct Few<const N: usize> {
    count: usize,
    values: [u32; N],
    ghost within: { count ≤ N },
}

impl<const N: usize> Few<N> {
    ghost use Rattle.supplies.specs.Few.{few};

    // The first `count` of these values. A count past them is read as all of them.
    pub fn new(values: [u32; N], count: usize) -> Self
        ensures few { few result ≡ take count values.entry }
        ensures count { length (few result) ≡ min count N }
    {
        let count = count.min(N);
        Few { values, count }
    }

    // The whole array, which may hold anything past the first so many.
    pub fn values(&self) -> [u32; N]
        ensures { take (length (few self.now)) result ≡ few self.now }
    {
        self.values
    }

    pub fn as_slice(&self) -> &[u32]
        ensures few { result.now ≡ few self.now }
        ensures within { length (few self.now) ≤ N }
    {
        &self.values[..self.count]
    }
}
