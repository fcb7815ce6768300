// The services for programs in other languages (bindings/linres.h): numbers and slices in and out, no struct and no array.
#![tactic(auto)]

ghost use Rattle.exports.specs.Promises.{TextPromise, NumbersPromise, CostPromise};
ghost use Rattle.exports.specs.Promises.{JobReaderPromise, AnswerReaderPromise, JobWriterPromise, AnswerWriterPromise};

use checks::Refusal;

// The text that answers a text, at the front of out: its length, or 0 where out is too short for it (an answer has at least 11
// bytes). Nothing is touched then.
#[unsafe(no_mangle)]
pub extern "C" fn linres_answer_text(text: &[u8], out: &mut [u8]) -> usize
    ensures { TextPromise text.now out.old result out.new }
{
    linres_text::answer_text(text, out).unwrap_or(0)
}

// The resolvent of f for the weights, modulo p: the number of document 01's table, or 0. N goes to count, the mark, 1 for yes and
// 0 for no, to simple, and the number of weight lists worked to lists; all three are 0 where the call is refused.
#[unsafe(no_mangle)]
pub extern "C" fn linres_resolvent(
    p: u32,
    f: &[u32],
    weights: &[i32],
    out: &mut [u32],
    work: &mut [u32],
    count: &mut usize,
    simple: &mut u32,
    lists: &mut u32,
) -> u32
    ensures { NumbersPromise p f.now weights.now out.old work.old result
        count.new simple.new lists.new out.new work.new }
{
    let outcome = resolvents::resolvent_for(p, f, weights, out, work);
    let code = checks::code(&outcome);
    let summary = outcome.unwrap_or_default();
    *count = summary.count;
    *simple = u32::from(summary.simple);
    *lists = summary.lists;
    code
}

// What a job with these weights costs, told before it is worked: 0, and the number of weight lists goes to lists; or the number of
// row 6 or 8 of document 01's table, and 0 goes there.
#[unsafe(no_mangle)]
pub extern "C" fn linres_lists(weights: &[i32], lists: &mut u32) -> u32
    ensures { CostPromise weights.now result lists.new }
{
    let cost = resolvents::lists_for(weights);
    let code = checks::code(&cost);
    *lists = cost.unwrap_or(0);
    code
}

// Reads the text as a job into the fronts of coeffs and weights, which have 64 places or more: 0, and the modulus and the two counts
// go to the lent words. Or 13 or 1, and 0 goes to all three.
#[unsafe(no_mangle)]
pub extern "C" fn linres_read_job(
    text: &[u8],
    coeffs: &mut [u32],
    weights: &mut [i32],
    modulus: &mut u32,
    degree: &mut usize,
    count: &mut usize,
) -> u32
    ensures { JobReaderPromise text.now coeffs.old weights.old result
        modulus.new degree.new count.new coeffs.new weights.new }
{
    let told = records::read_job(text, coeffs, weights);
    let code = checks::code(&told);
    let job = told.unwrap_or_default();
    *modulus = job.modulus;
    *degree = job.degree;
    *count = job.weights;
    code
}

// The same for an answer, whose coefficients take 1,024 places or more; its mark, 1 for yes and 0 for no, goes to simple.
#[unsafe(no_mangle)]
pub extern "C" fn linres_read_answer(
    text: &[u8],
    coeffs: &mut [u32],
    modulus: &mut u32,
    degree: &mut usize,
    simple: &mut u32,
) -> u32
    ensures { AnswerReaderPromise text.now coeffs.old result
        modulus.new degree.new simple.new coeffs.new }
{
    let told = records::read_answer(text, coeffs);
    let code = checks::code(&told);
    let answer = told.unwrap_or_default();
    *modulus = answer.modulus;
    *degree = answer.degree;
    *simple = u32::from(answer.simple);
    code
}

// Writes the job at the front of out: 0, and its length goes to len. Or 15 or 14, and 0 goes there.
#[unsafe(no_mangle)]
pub extern "C" fn linres_write_job(
    modulus: u32,
    coeffs: &[u32],
    weights: &[i32],
    out: &mut [u8],
    len: &mut usize,
) -> u32
    ensures { JobWriterPromise modulus coeffs.now weights.now out.old result
        len.new out.new }
{
    let job = records::write_job(modulus, coeffs, weights, out);
    let code = checks::code(&job);
    *len = job.unwrap_or(0);
    code
}

// The same for an answer, whose mark is 1 for yes and 0 for no; no answer holds another word.
#[unsafe(no_mangle)]
pub extern "C" fn linres_write_answer(
    modulus: u32,
    simple: u32,
    coeffs: &[u32],
    out: &mut [u8],
    len: &mut usize,
) -> u32
    ensures { AnswerWriterPromise modulus simple coeffs.now out.old result len.new out.new }
{
    if 1 < simple {
        *len = 0;
        return u32::from(Refusal::NotHeld);
    }
    let answer = records::write_answer(modulus, simple == 1, coeffs, out);
    let code = checks::code(&answer);
    *len = answer.unwrap_or(0);
    code
}
