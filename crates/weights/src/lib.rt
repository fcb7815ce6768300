// A weight list: a few signed weights with their count r (document 01, "A job in numbers").
// A list goes in by value and a new one comes back; the old one stays good. Every list and place is answered.
#![tactic(auto)]

ghost use Rattle.std.specs.Prelude.{◌+◌, ◌≤◌, ◌<◌, ◌≡◌, pos, length, drop, get_or};
ghost use Rattle.algebra.specs.Binomial.{falling};
ghost use Rattle.algebra.specs.Integer.{ℤ_eq};
ghost use Rattle.placements.specs.Placements.{count, factorials, placed};
ghost use Rattle.limits.specs.Limits.{capacity};
ghost use Rattle.weights.specs.Lists.{of_slice, listed, among, without_at, with_sum_at};

// The first len places hold the weights; places after them count for nothing. The room is fixed, with the count beside it, since a list goes
// by value without a heap, and one with a count above the capacity is a list too, which a job is refused for.
#[derive(Clone, Copy)]
pub struct Weights {
    pub places: [i32; limits::CAPACITY],
    pub len: usize,
}

impl Weights {
    // The list of the numbers in a slice: its first places, as many as there are, hold them, and r is how many the slice has.
    pub fn of(weights: &[i32]) -> Weights
        ensures { result ≡ of_slice weights.now }
    {
        let len = weights.len();
        let mut places = [0i32; limits::CAPACITY];
        // Place by place: so few numbers are copied sooner than the system's copy is called, which a copy of `len` numbers is made to.
        for at in 0..limits::CAPACITY {
            if at < len {
                places[at] = weights[at];
            }
        }
        Weights { places, len }
    }

    // Whether a place is among the first r, and r is not above the capacity.
    fn has_place(self, at: usize) -> bool
        ensures { result ≡ among self at }
    {
        self.len <= limits::CAPACITY && at < self.len
    }

    // The list without the weight at a place.
    #[tactic(auto, using(crate::specs::Laws::there_among))]
    pub fn without(self, at: usize) -> Weights
        ensures { result ≡ without_at self at }
    {
        if !self.has_place(at) {
            return self;
        }
        let len = self.len - 1;
        let mut places = self.places;
        // By index: each turn reads the place behind the one that it writes, and an edit can have it read another.
        for i in at..len {
            places[i] = places[i + 1];
        }
        places[len] = 0;
        Weights { places, len }
    }

    // The list with e added to the weight at a place.
    #[tactic(auto, using(crate::specs::Laws::there_among))]
    pub fn with_sum(mut self, at: usize, e: i32) -> Weights
        ensures { result ≡ with_sum_at self at e }
    {
        if !self.has_place(at) {
            return self;
        }
        // In 64 bits, where each sum fits, and by the bounds of a word: no operand of `checked_add` could be edited to a bound one too large.
        let sum = i64::from(self.places[at]) + i64::from(e);
        let fits = (i64::from(i32::MIN)..=i64::from(i32::MAX)).contains(&sum);
        if fits {
            self.places[at] = sum as i32;
        }
        self
    }

    // The weights that the list holds: the first r places, or all where r is above the capacity.
    fn listed(&self) -> &[i32]
        ensures first_r { result.now ≡ listed self.now }
        ensures few { length result.now ≤ capacity }
    {
        &self.places[..self.len.min(limits::CAPACITY)]
    }

    // How often the weight at a place occurs from another place on.
    pub fn copies(self, at: usize, from: usize) -> u32
        ensures { result ≡ count ℤ_eq (get_or (listed self) at (pos 0)) (drop from (listed self)) }
    {
        let listed = self.listed();
        let weight = listed.get(at).copied().unwrap_or(0);
        let from = from.min(listed.len());
        listed[from..].iter().filter(|&w| w == &weight).count() as u32
    }

    // The product of m! over the different weights, m being how often each occurs: from the last weight to the first, one that
    // has m copies behind it is the factor m + 1.
    pub fn factorials(self) -> u32
        ensures { result ≡ factorials ℤ_eq (listed self) }
    {
        let mut product = 1;
        for at in (0..self.listed().len()).rev() {
            product *= self.copies(at, at + 1) + 1;
        }
        product
    }

    // N, the number of placements in n positions. The division leaves nothing (`whole` of specs/Numbers.antt).
    pub fn placements(self, n: u8) -> u64
        ensures { result ≡ placed n (listed self) }
    {
        falling_product(n as u64, self.listed().len() as u64) / self.factorials() as u64
    }
}

// n (n - 1) .. (n - r + 1), from the smallest factor to the largest.
fn falling_product(n: u64, r: u64) -> u64
    requires n_bound { n ≤ 255 }
    requires r_le_capacity { r ≤ capacity }
    ensures { result ≡ falling n r }
{
    if n < r {
        return 0;
    }
    let mut product = 1;
    for factor in n - r + 1..=n {
        product *= factor;
    }
    product
}
