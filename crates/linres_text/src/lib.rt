// From the text of a job to the text of its answer: all that the program `linres` does between reading and writing.
#![tactic(auto)]

ghost use Rattle.lines.specs.Lines.{refused_line};
ghost use Rattle.records.specs.Records.{job};
ghost use Rattle.records.specs.Put.{Put};
ghost use Rattle.records.specs.Told.{written};
ghost use Rattle.checks.specs.Refusal.{number};
ghost use Rattle.linres_text.specs.Texts.{TextOf, AnswerTo};
ghost use Rattle.linres_text.specs.Promise.{Puts};
ghost use Rattle.linres_text.specs.AnyText.{AnswersAny};

use checks::Refusal;

// Writes the line of a refusal.
fn refuse(refusal: Refusal, out: &mut [u8]) -> Result<usize, Refusal>
    ensures { Put (refused_line (number refusal)) out.old (written result) out.new }
{
    let row = u32::from(refusal);
    if out.len() < 9 + decimal::width(row) {
        return Err(Refusal::ShortText);
    }
    Ok(lines::write_refused(out, row))
}

// Writes the answer to a job. The rooms hold the largest N.
fn answer_job(p: u32, f: &[u32], weights: &[i32], out: &mut [u8]) -> Result<usize, Refusal>
    ensures { Puts (AnswerTo (job p f.now weights.now)) out.old (written result) out.new }
{
    let mut output = [0u32; limits::MOST_PLACEMENTS];
    let mut work = [0u32; limits::LARGEST_ROOM];
    match resolvents::resolvent_for(p, f, weights, &mut output, &mut work) {
        Ok(summary) => records::write_answer(p, summary.simple, &output[..summary.count], out),
        Err(row) => refuse(row, out),
    }
}

// Writes the text that answers the text at the front of out, and answers its length; or refuses by row 14 where out is too short.
pub fn answer_text(text: &[u8], out: &mut [u8]) -> Result<usize, Refusal>
    ensures { Puts (TextOf text.now) out.old (written result) out.new }
{
    let long = limits::LONGEST_TEXT < text.len();
    if long {
        return refuse(Refusal::NoRecord, out);
    }
    let mut coeffs = [0u32; limits::MOST_NUMBERS];
    let mut weights = [0i32; limits::MOST_NUMBERS];
    match records::read_job(text, &mut coeffs, &mut weights) {
        Ok(job) => answer_job(
            job.modulus,
            &coeffs[..job.degree],
            &weights[..job.weights],
            out,
        ),
        Err(refusal) => refuse(refusal, out),
    }
}

// Writes the text that answers the text, whatever it is, at the front of out, where the longest answer has room, and returns its length.
pub fn answer_any(text: &[u8], out: &mut [u8; limits::LONGEST_ANSWER]) -> usize
    ensures { AnswersAny text.now out.old result out.new }
{
    answer_text(text, out).unwrap_or(0)
}
