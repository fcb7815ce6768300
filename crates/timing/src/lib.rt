// What bench/ measures, for C to call.
#![tactic(auto)]

ghost use Rattle.std.specs.Prelude.{◌≡◌, ◌≤◌, length};
ghost use Rattle.halves.specs.Halves.{Halved, Widened, Halves, halves_sum};
ghost use Rattle.residues.specs.Promises.{InRange, inner_sum};

use residues::Modulus;

// With so many terms the sums of an inner product fit 64 bits.
const MOST_TERMS: usize = 1 << 31;

// The inner product, and 0 where its words do not have the range.
#[unsafe(no_mangle)]
pub extern "C" fn linres_inner_product(
    p: u32,
    a: &[u32],
    b: &[u32],
    terms: usize,
    last: usize,
) -> u32
    ensures value { InRange p a.now b.now terms last → result ≡ inner_sum p a.now b.now terms last }
    ensures value_2 { (InRange p a.now b.now terms last → ⊥) → result ≡ 0 }
{
    let within = terms <= a.len() && last < b.len() && terms <= last + 1;
    if p != 0 && within && terms <= MOST_TERMS {
        Modulus::of(p).inner_product(a, b, terms, last)
    } else {
        0
    }
}

// The inner product in halves, and what it works on. C must keep to what each asks.
#[unsafe(no_mangle)]
pub extern "C" fn linres_halve(row: &[u32], m: usize, low: &mut [u64], high: &mut [u64])
    requires { (m ≤ length row.now) × (m ≤ length low.old) × (m ≤ length high.old) }
    ensures { Halved row.now m low.old low.new high.old high.new }
{
    halves::halve(row, m, low, high)
}

#[unsafe(no_mangle)]
pub extern "C" fn linres_widen(row: &[u32], m: usize, wide: &mut [u64])
    requires { (m ≤ length row.now) × (m ≤ length wide.old) }
    ensures { Widened row.now m wide.old wide.new }
{
    halves::widen(row, m, wide)
}

#[unsafe(no_mangle)]
pub extern "C" fn linres_inner_halves(
    p: u32,
    low: &[u64],
    high: &[u64],
    from: usize,
    wide: &[u64],
    at: usize,
    terms: usize,
) -> u32
    requires { Halves p low.now high.now from wide.now at terms }
    ensures { result ≡ halves_sum p low.now high.now from wide.now at terms }
{
    halves::inner_halves(Modulus::of(p), low, high, from, wide, at, terms)
}
