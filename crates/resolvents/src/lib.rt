// The resolvent entry: numbers in, the resolvent's coefficients or a refusal out (document 01).
#![tactic(auto)]

ghost use Rattle.std.specs.Prelude.{◌≤◌, length};
ghost use Rattle.weights.specs.Lists.{listed};
ghost use Rattle.refusals.specs.Judged.{given};
ghost use Rattle.resolvents.specs.Results.{outcome, cost};
ghost use Rattle.resolvents.specs.Promise.{Promise, left};
ghost use Rattle.resolvents.specs.Cleared.{Cleared};
ghost use Rattle.resolvents.specs.Cost.{Told};
ghost use Rattle.resolvents.specs.Slices.{asked};

use checks::Refusal;
use residues::Modulus;
use weights::Weights;

// Words of scratch room for f and its derivative.
const SCRATCH: usize = 2 * (limits::HIGHEST_DEGREE + 1);

// What an answered job comes to besides its words: N, the mark, the number of weight lists worked.
#[derive(Clone, Copy, Debug, Default, PartialEq, Eq)]
pub struct Summary {
    pub count: usize,
    pub simple: bool,
    pub lists: u32,
}

// Zeroes the first m words of the work room, the rest of which stays (`Cleared`).
fn clear(m: usize, work: &mut [u32])
    requires { m ≤ length work.old }
    ensures { Cleared m work.old work.new }
{
    work[..m].fill(0);
}

// The resolvent of f for the weights of the list, modulo p. Every call is answered or refused; nothing is written before the
// last check is made. (The arguments are those that document 01 lists, as C hands them over; a struct would be taken apart at once.)
pub fn resolvent(
    p: u32,
    f: &[u32],
    list: Weights,
    out: &mut [u32],
    work: &mut [u32],
) -> Result<Summary, Refusal>
    ensures { Promise (given p f.now list out.old work.old)
        (left (outcome result) out.new work.new) }
{
    let job = refusals::judged(p, f, list, out, work)?;
    let modulus = Modulus { value: p };
    let n = job.count;
    refusals::check_divisors(modulus, job.product, n)?;
    let mut scratch = [0u32; SCRATCH];
    let simple = polynomials::simple(modulus, f, &mut scratch);
    let mut places = [0u32; limits::MOST_PLACEMENTS];
    let table = &mut places[..n];
    modulus.inverses(table);
    let inverse = modulus.inverse(job.product % p);
    let lists = engine::answer(modulus, f, list, n, table, inverse, out, work);
    clear(limits::WORK_ROWS * (n + 1), work);
    Ok(Summary {
        count: n,
        simple,
        lists,
    })
}

// The same for weights in a slice, whose length is r. More weights than a list holds are row 6's refusal, whatever they are.
pub fn resolvent_for(
    p: u32,
    f: &[u32],
    weights: &[i32],
    out: &mut [u32],
    work: &mut [u32],
) -> Result<Summary, Refusal>
    ensures { Promise (asked p f.now weights.now out.old work.old)
        (left (outcome result) out.new work.new) }
{
    resolvent(p, f, Weights::of(weights), out, work)
}

// What a job costs, told before it is worked: the number of lists that a job with these weights is worked by. Of n = r positions
// row 7 never applies, so the rows left are those of the list alone.
pub fn lists(list: Weights) -> Result<u32, Refusal>
    ensures { Told list.len (listed list) (cost result) }
{
    refusals::check_weights(list.len, list)?;
    Ok(cost::lists(list))
}

// The same for weights in a slice.
pub fn lists_for(weights: &[i32]) -> Result<u32, Refusal>
    ensures { Told (length weights.now) weights.now (cost result) }
{
    lists(Weights::of(weights))
}
