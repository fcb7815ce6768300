// Whether a job is answered: the checks of the resolvent entry, in document 01's order, with parts that other entries combine.
#![tactic(auto)]

ghost use Rattle.std.specs.Prelude.{◌≡◌, ◌++◌, suc, ◌%◌, ◌<◌, ◌≤◌, leb, eqb, length, get_or};
ghost use Rattle.limits.specs.Limits.{capacity, most_placements};
ghost use Rattle.checks.specs.Checks.{first, some_below};
ghost use Rattle.checks.specs.Refusal.{code};
ghost use Rattle.weights.specs.Lists.{listed};
ghost use Rattle.refusals.specs.Refusals.{bad_weight, some_bad, modulus_checks, degree_checks, coefficient_checks, weight_checks, number_checks, room_checks, divisor_checks};
ghost use Rattle.refusals.specs.Judged.{given, Judged};

use checks::Refusal;
use residues::Modulus;
use weights::Weights;

// Rows 2 and 3.
#[tactic(auto, using(residues::specs::Trial::is_prime_iff), unfolding(crate::specs::Refusals::modulus_checks, checks::specs::Checks::first))]
fn check_modulus(p: u32) -> Result<(), Refusal>
    ensures { code result ≡ first (modulus_checks p) }
{
    if !(limits::LEAST_MODULUS..=limits::LARGEST_MODULUS).contains(&p) {
        return Err(Refusal::ModulusOutOfRange);
    }
    if !primes::is_prime(p) {
        return Err(Refusal::NotPrime);
    }
    Ok(())
}

// Whether some coefficient is p or more.
fn has_large(p: u32, f: &[u32]) -> bool
    ensures { result ≡ some_below (λ i. leb p (get_or f.now i 0)) (length f.now) }
{
    f.iter().any(|c| *c >= p)
}

// Rows 4 and 5.
#[tactic(auto, unfolding(crate::specs::Refusals::degree_checks, crate::specs::Refusals::coefficient_checks, crate::specs::Refusals::zero_or_above, checks::specs::Checks::first))]
fn check_polynomial(p: u32, f: &[u32]) -> Result<(), Refusal>
    ensures { code result ≡ first (degree_checks f.now ++ coefficient_checks p f.now) }
{
    if !(1..=limits::HIGHEST_DEGREE).contains(&f.len()) {
        return Err(Refusal::DegreeOutOfRange);
    }
    if has_large(p, f) {
        return Err(Refusal::LargeCoefficient);
    }
    Ok(())
}

// Whether a weight is 0 or outside -16 to 16.
#[tactic(auto, unfolding(crate::specs::Refusals::zero_or_above))]
fn is_bad(e: i32) -> bool
    ensures { result ≡ bad_weight e }
{
    let size = e.unsigned_abs();
    size == 0 || size > limits::LARGEST_WEIGHT as u32
}

// Whether some weight of the list is.
fn has_bad(list: Weights) -> bool
    requires { list.len ≤ capacity }
    ensures { result ≡ some_bad (listed list) }
{
    list.places[..list.len].iter().any(|e| is_bad(*e))
}

// Rows 6, 7 and 8.
#[tactic(auto, unfolding(crate::specs::Refusals::weight_checks, crate::specs::Refusals::zero_or_above, checks::specs::Checks::first))]
pub fn check_weights(n: usize, list: Weights) -> Result<(), Refusal>
    ensures { code result ≡ first (weight_checks n list.len (listed list)) }
{
    if !(1..=limits::CAPACITY).contains(&list.len) {
        return Err(Refusal::CountOutOfRange);
    }
    if list.len > n {
        return Err(Refusal::MoreWeightsThanZeros);
    }
    if has_bad(list) {
        return Err(Refusal::WeightOutOfRange);
    }
    Ok(())
}

// Rows 9 and 10.
#[tactic(auto, unfolding(crate::specs::Refusals::number_checks, checks::specs::Checks::first))]
fn check_number(p: u32, n: u64) -> Result<(), Refusal>
    ensures { code result ≡ first (number_checks p n) }
{
    if n > limits::MOST_PLACEMENTS as u64 {
        return Err(Refusal::ManyPlacements);
    }
    if n >= p as u64 {
        return Err(Refusal::PlacementsReachModulus);
    }
    Ok(())
}

// Rows 11 and 12. (N is at most 1,024 from here on by row 9: a clause, since rows 11, 12 and 16 may not be asked before.)
#[tactic(auto, unfolding(crate::specs::Refusals::room_checks, checks::specs::Checks::first))]
fn check_room(n: usize, output: usize, work: usize) -> Result<(), Refusal>
    requires { n ≤ most_placements }
    ensures { code result ≡ first (room_checks n output work) }
{
    if output < n {
        return Err(Refusal::ShortOutput);
    }
    if work < limits::WORK_ROWS * (n + 1) {
        return Err(Refusal::ShortWork);
    }
    Ok(())
}

// What is known of a call that none of rows 2 to 12 refuses: N and the product of m!.
#[derive(Clone, Copy)]
pub struct Judgement {
    pub count: usize,
    pub product: u32,
}

// Rows 2 to 12.
pub fn judged(
    p: u32,
    f: &[u32],
    list: Weights,
    output: &[u32],
    work: &[u32],
) -> Result<Judgement, Refusal>
    ensures { Judged (given p f.now list output.now work.now) result }
{
    check_modulus(p)?;
    check_polynomial(p, f)?;
    check_weights(f.len(), list)?;
    let placements = list.placements(f.len() as u8);
    check_number(p, placements)?;
    let count = placements as usize;
    check_room(count, output.len(), work.len())?;
    Ok(Judgement {
        count,
        product: list.factorials(),
    })
}

// Whether some number from 1 to n is 0 modulo p.
fn has_zero(p: Modulus, n: usize) -> bool
    requires { n ≤ most_placements }
    ensures { result ≡ some_below (λ i. eqb (suc i % p.value) 0) n }
{
    (1..=n as u32).any(|k| k % p.value == 0)
}

// Row 16.
#[tactic(auto, unfolding(crate::specs::Refusals::divisor_checks, checks::specs::Checks::first))]
pub fn check_divisors(p: Modulus, product: u32, n: usize) -> Result<(), Refusal>
    requires { n ≤ most_placements }
    ensures { code result ≡ first (divisor_checks p.value product n) }
{
    if product % p.value == 0 || has_zero(p, n) {
        return Err(Refusal::ZeroDivisor);
    }
    Ok(())
}
