// The two records of document 01, read and written. A record has one spelling.
#![tactic(auto)]

ghost use Rattle.std.specs.Prelude.{◌≡◌, true, ◌↔◌, ◌+◌, ◌≤◌, length, take, ok_or};
ghost use Rattle.checks.specs.declared.Refusal.TheVariants.{NoRecord};
ghost use Rattle.decimal.specs.Written.{Wrote};
ghost use Rattle.records.specs.Records.{JobHolds, AnswerHolds, job, answer, job_text, answer_text};
ghost use Rattle.limits.specs.Limits.{most_numbers, most_placements};
ghost use Rattle.records.specs.Promises.{ReadsJob, ReadsAnswer, WritesJob, WritesAnswer, job_kind, answer_kind};
ghost use Rattle.records.specs.Put.{over};
ghost use Rattle.records.specs.Scan.{read_job, read_answer, Parsed};
ghost use Rattle.records.specs.Told.{job_told, answer_told, written};

use checks::Refusal;

// The values of a job but its lists, which go to the slices that are lent: the modulus, and how many coefficients and weights.
#[derive(Clone, Copy, Debug, Default, PartialEq, Eq)]
pub struct JobHead {
    pub modulus: u32,
    pub degree: usize,
    pub weights: usize,
}

// The same for an answer, with its mark.
#[derive(Clone, Copy, Debug, Default, PartialEq, Eq)]
pub struct AnswerHead {
    pub modulus: u32,
    pub degree: usize,
    pub simple: bool,
}

// The first n of the array go over the front of lent; the rest is left. (The array comes whole, with n beside it, so that an edit can have
// another number copied.)
fn copy_over<T: Copy>(array: &[T], n: usize, lent: &mut [T])
    requires { (n ≤ length array.now) × (n ≤ length lent.old) }
    ensures { lent.new ≡ over (take n array.now) lent.old }
{
    lent[..n].copy_from_slice(&array[..n]);
}

// A job and an answer have other fields and other lines, so the functions below stand twice: a trait for both kinds is longer than they
// are, and no plainer.

// The whole text as a job, whose lists go to the fronts of cs and ws; any other text leaves these in any state.
fn parse_job(text: &[u8], cs: &mut [u32], ws: &mut [i32]) -> Option<JobHead>
    requires { (length cs.old ≡ most_numbers) × (length ws.old ≡ most_numbers) }
    ensures { Parsed job_kind (read_job text.now) (job_told (ok_or result NoRecord)) (cs.new, ws.new) }
{
    let head = lines::read_head(text)?;
    let first = &text[head.end..];
    let (n, behind) = lines::read_list_line(first, b"coeffs=", cs)?;
    let second = &first[behind..];
    let (m, end) = lines::read_list_line(second, b"weights=", ws)?;
    if end != second.len() || head.degree as usize != n {
        return None;
    }
    Some(JobHead {
        modulus: head.modulus,
        degree: n,
        weights: m,
    })
}

// Reads the text as a job into the fronts of coeffs and weights. A refusal leaves both as they were.
pub fn read_job(text: &[u8], coeffs: &mut [u32], weights: &mut [i32]) -> Result<JobHead, Refusal>
    ensures { ReadsJob text.now (coeffs.old, weights.old) (job_told result) (coeffs.new, weights.new) }
{
    if coeffs.len() < limits::MOST_NUMBERS || weights.len() < limits::MOST_NUMBERS {
        return Err(Refusal::ShortLists);
    }
    let mut cs = [0u32; limits::MOST_NUMBERS];
    let mut ws = [0i32; limits::MOST_NUMBERS];
    let found = parse_job(text, &mut cs, &mut ws);
    // Where no job is found both counts are 0, and nothing is copied. (Copied before the answer is known, so that an edit can copy at a refusal.)
    let JobHead {
        degree: n,
        weights: m,
        ..
    } = found.unwrap_or_default();
    copy_over(&cs, n, coeffs);
    copy_over(&ws, m, weights);
    found.ok_or(Refusal::NoRecord)
}

// The whole text as an answer, whose coefficients go to the front of cs; any other text leaves it in any state.
fn parse_answer(text: &[u8], cs: &mut [u32]) -> Option<AnswerHead>
    requires { length cs.old ≡ most_placements }
    ensures { Parsed answer_kind (read_answer text.now) (answer_told (ok_or result NoRecord)) cs.new }
{
    let head = lines::read_head(text)?;
    let first = &text[head.end..];
    let (simple, behind) = lines::read_mark(first)?;
    let second = &first[behind..];
    let (count, end) = lines::read_list_line(second, b"coeffs=", cs)?;
    if end != second.len() || head.degree as usize != count {
        return None;
    }
    Some(AnswerHead {
        modulus: head.modulus,
        degree: count,
        simple,
    })
}

// Reads the text as an answer into the front of coeffs. A refusal leaves it as it was.
pub fn read_answer(text: &[u8], coeffs: &mut [u32]) -> Result<AnswerHead, Refusal>
    ensures { ReadsAnswer text.now coeffs.old (answer_told result) coeffs.new }
{
    if coeffs.len() < limits::MOST_PLACEMENTS {
        return Err(Refusal::ShortLists);
    }
    let mut cs = [0u32; limits::MOST_PLACEMENTS];
    let found = parse_answer(text, &mut cs);
    let head = found.ok_or(Refusal::NoRecord)?;
    copy_over(&cs, head.degree, coeffs);
    Ok(head)
}

// Whether a job can hold the values.
fn job_holds(modulus: u32, coeffs: &[u32], weights: &[i32]) -> bool
    ensures { (result ≡ true) ↔ JobHolds (job modulus coeffs.now weights.now) }
{
    (1..=limits::MOST_NUMBERS).contains(&coeffs.len())
        && (1..=limits::MOST_NUMBERS).contains(&weights.len())
        && decimal::each_small(weights)
}

fn job_len(modulus: u32, coeffs: &[u32], weights: &[i32]) -> usize
    requires { JobHolds (job modulus coeffs.now weights.now) }
    ensures { result ≡ length (job_text (job modulus coeffs.now weights.now)) }
{
    lines::head_len(modulus, coeffs.len())
        + b"coeffs=".len()
        + decimal::list_width(coeffs)
        + b"weights=".len()
        + decimal::list_width(weights)
}

// Writes the job at the front of out, which has room for it.
fn put_job(out: &mut [u8], modulus: u32, coeffs: &[u32], weights: &[i32]) -> usize
    requires { JobHolds (job modulus coeffs.now weights.now) × (0 + length (job_text (job modulus coeffs.now weights.now)) ≤ length out.old) }
    ensures { Wrote (job_text (job modulus coeffs.now weights.now)) out.old 0 out.new result }
{
    let a = lines::write_head(out, modulus, coeffs.len());
    let b = lines::write_list_line(out, a, b"coeffs=", coeffs);
    lines::write_list_line(out, b, b"weights=", weights)
}

// Writes the job at the front of out and answers its length.
pub fn write_job(
    modulus: u32,
    coeffs: &[u32],
    weights: &[i32],
    out: &mut [u8],
) -> Result<usize, Refusal>
    ensures { WritesJob (job modulus coeffs.now weights.now) out.old (written result) out.new }
{
    if !job_holds(modulus, coeffs, weights) {
        return Err(Refusal::NotHeld);
    }
    if out.len() < job_len(modulus, coeffs, weights) {
        return Err(Refusal::ShortText);
    }
    Ok(put_job(out, modulus, coeffs, weights))
}

fn answer_len(modulus: u32, simple: bool, coeffs: &[u32]) -> usize
    requires { AnswerHolds (answer modulus simple coeffs.now) }
    ensures { result ≡ length (answer_text (answer modulus simple coeffs.now)) }
{
    lines::head_len(modulus, coeffs.len())
        + lines::mark_len(simple)
        + b"coeffs=".len()
        + decimal::list_width(coeffs)
}

// Writes the answer at the front of out, which has room for it.
fn put_answer(out: &mut [u8], modulus: u32, simple: bool, coeffs: &[u32]) -> usize
    requires { AnswerHolds (answer modulus simple coeffs.now) × (0 + length (answer_text (answer modulus simple coeffs.now)) ≤ length out.old) }
    ensures { Wrote (answer_text (answer modulus simple coeffs.now)) out.old 0 out.new result }
{
    let a = lines::write_head(out, modulus, coeffs.len());
    let b = lines::write_mark(out, a, simple);
    lines::write_list_line(out, b, b"coeffs=", coeffs)
}

// Writes the answer at the front of out and answers its length.
pub fn write_answer(
    modulus: u32,
    simple: bool,
    coeffs: &[u32],
    out: &mut [u8],
) -> Result<usize, Refusal>
    ensures { WritesAnswer (answer modulus simple coeffs.now) out.old (written result) out.new }
{
    if !(1..=limits::MOST_PLACEMENTS).contains(&coeffs.len()) {
        return Err(Refusal::NotHeld);
    }
    if out.len() < answer_len(modulus, simple, coeffs) {
        return Err(Refusal::ShortText);
    }
    Ok(put_answer(out, modulus, simple, coeffs))
}
