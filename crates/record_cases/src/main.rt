// Reads and writes records at their edges, and prints what came out: the numbers of each answer, what is left of the slices, and the texts. What
// cannot be written is left out.
#![tactic(auto)]

mod long;

use checks::Refusal;
use long::Repeated;
use records::{AnswerHead, JobHead};

// One number more than a line of a job or an answer holds.
const MANY_NUMBERS: usize = limits::MOST_NUMBERS + 1;

const MANY_COEFFICIENTS: usize = limits::MOST_PLACEMENTS + 1;

// What the slices hold that are lent.
const LENT: u8 = 7;

const LENT_TEXT: u8 = b'#';

// Jobs and answers have other fields, and are read and written by functions of other arguments, so what follows stands once for each: a
// generic over both would take as many closures as it has lines.

// Bytes enough for the longest job, for the longest answer, and for the short texts that are written.
const JOB_ROOM: usize = 1200;

const ANSWER_ROOM: usize = 11400;

const SHORT_ROOM: usize = 60;

// How many elements from the place on are still what was lent.
fn kept<T: PartialEq + Copy>(elements: &[T], from: usize, lent: T) -> usize {
    elements.iter().skip(from).filter(|x| **x == lent).count()
}

// The ending of a line: whether a record was written back as the text that it was read from.
fn ending(is_back: bool) -> &'static str {
    if is_back { " same" } else { "" }
}

// Whether what was read is written as the text.
fn job_is_back(text: &[u8], head: JobHead, coeffs: &[u32], weights: &[i32]) -> bool {
    let mut out = [LENT_TEXT; JOB_ROOM];
    let cs = coeffs.get(..head.degree).unwrap_or(&[]);
    let ws = weights.get(..head.weights).unwrap_or(&[]);
    let Ok(len) = records::write_job(head.modulus, cs, ws, &mut out) else {
        return false;
    };
    out.get(..len) == Some(text)
}

fn answer_is_back(text: &[u8], head: AnswerHead, coeffs: &[u32]) -> bool {
    let mut out = [LENT_TEXT; ANSWER_ROOM];
    let cs = coeffs.get(..head.degree).unwrap_or(&[]);
    let Ok(len) = records::write_answer(head.modulus, head.simple, cs, &mut out) else {
        return false;
    };
    out.get(..len) == Some(text)
}

// Reads a job: the case, the text's length, code, modulus, the two counts, the words kept, and whether it is written back as it was.
fn job_in(rt: &impl Print, case: usize, text: &[u8], coeffs: &mut [u32], weights: &mut [i32]) {
    let read = records::read_job(text, coeffs, weights);
    let code = checks::code(&read);
    let head = read.unwrap_or_default();
    let (modulus, n, m) = (head.modulus, head.degree, head.weights);
    let of_coeffs = kept(coeffs, n, u32::from(LENT));
    let of_weights = kept(weights, m, i32::from(LENT));
    let end = ending(read.is_ok() && job_is_back(text, head, coeffs, weights));
    let _ = println!(rt;
        " {case} {} {code} {modulus} {n} {m} kept {of_coeffs} {of_weights}{end}",
        text.len()
    );
}

// The same with slices of c and w words lent.
fn job_lent(rt: &impl Print, case: usize, text: &[u8], c: usize, w: usize) {
    let mut coeffs = [u32::from(LENT); MANY_NUMBERS];
    let mut weights = [i32::from(LENT); MANY_NUMBERS];
    let c = c.min(MANY_NUMBERS);
    let w = w.min(MANY_NUMBERS);
    job_in(rt, case, text, &mut coeffs[..c], &mut weights[..w]);
}

fn job(rt: &impl Print, case: usize, text: &[u8]) {
    job_lent(rt, case, text, MANY_NUMBERS, MANY_NUMBERS);
}

// The same for an answer, with its mark.
fn answer_in(rt: &impl Print, case: usize, text: &[u8], coeffs: &mut [u32]) {
    let read = records::read_answer(text, coeffs);
    let code = checks::code(&read);
    let head = read.unwrap_or_default();
    let (modulus, n) = (head.modulus, head.degree);
    let mark = if head.simple { "yes" } else { "no" };
    let of_coeffs = kept(coeffs, n, u32::from(LENT));
    let end = ending(read.is_ok() && answer_is_back(text, head, coeffs));
    let _ = println!(rt;
        " {case} {} {code} {modulus} {n} {mark} kept {of_coeffs}{end}",
        text.len()
    );
}

fn answer_lent(rt: &impl Print, case: usize, text: &[u8], c: usize) {
    let mut coeffs = [u32::from(LENT); MANY_COEFFICIENTS];
    let c = c.min(MANY_COEFFICIENTS);
    answer_in(rt, case, text, &mut coeffs[..c]);
}

fn answer(rt: &impl Print, case: usize, text: &[u8]) {
    answer_lent(rt, case, text, MANY_COEFFICIENTS);
}

// What a writer did: code, length, the bytes kept, and the text.
fn show(rt: &impl Print, case: usize, written: Result<usize, Refusal>, out: &[u8]) {
    let code = checks::code(&written);
    let n = written.unwrap_or_default();
    let of_text = kept(out, n, LENT_TEXT);
    let text = out.get(..n).unwrap_or(&[]);
    let _ = println!(rt; " {case} {code} {n} kept {of_text}");
    let _ = rt.write_all(text);
}

// Writes a job into `room` bytes.
fn put_job(rt: &impl Print, case: usize, coeffs: &[u32], weights: &[i32], room: usize) {
    let mut out = [LENT_TEXT; SHORT_ROOM];
    let room = room.min(SHORT_ROOM);
    let written = records::write_job(257, coeffs, weights, &mut out[..room]);
    show(rt, case, written, &out[..room]);
}

fn put_answer(rt: &impl Print, case: usize, simple: bool, coeffs: &[u32], room: usize) {
    let mut out = [LENT_TEXT; SHORT_ROOM];
    let room = room.min(SHORT_ROOM);
    let written = records::write_answer(257, simple, coeffs, &mut out[..room]);
    show(rt, case, written, &out[..room]);
}

const JOBS: [&[u8]; 12] = [
    // the document's example
    b"modulus=257\ndegree=4\ncoeffs=0,0,0,256\nweights=1,1\n",
    // the largest and smallest numbers
    b"modulus=4294967295\ndegree=2\ncoeffs=4294967295,0\nweights=-999,999,0\n",
    // an empty text
    b"",
    // NUL
    b"modulus=257\ndegree=1\ncoeffs=0\nweights=1\n\x00",
    // a byte above 127
    b"modulus=257\ndegree=1\ncoeffs=\xb2\nweights=1\n",
    // CR LF
    b"modulus=257\r\ndegree=1\r\ncoeffs=0\r\nweights=1\r\n",
    // no last LF
    b"modulus=257\ndegree=1\ncoeffs=0\nweights=1",
    // leading zero
    b"modulus=0257\ndegree=1\ncoeffs=0\nweights=1\n",
    // minus zero
    b"modulus=257\ndegree=1\ncoeffs=0\nweights=-0\n",
    // one too large
    b"modulus=4294967296\ndegree=1\ncoeffs=0\nweights=1\n",
    // no weights
    b"modulus=257\ndegree=1\ncoeffs=0\nweights=\n",
    // other degree
    b"modulus=257\ndegree=1\ncoeffs=0,1\nweights=1\n",
];

const LONG_JOBS: [(u32, Repeated, Repeated); 4] = [
    // 64 coefficients and 64 weights
    (257, Repeated(1, 64), Repeated(2, 64)),
    // 65 coefficients
    (257, Repeated(1, 65), Repeated(2, 64)),
    // 65 weights
    (257, Repeated(1, 64), Repeated(2, 65)),
    // longest job
    (4294967295, Repeated(4294967295, 64), Repeated(-999, 64)),
];

fn jobs(rt: &impl Print) {
    for (i, text) in JOBS.iter().enumerate() {
        job(rt, i + 1, text);
    }
}

fn long_jobs(rt: &impl Print) {
    for (i, &(modulus, coeffs, weights)) in LONG_JOBS.iter().enumerate() {
        let mut room = [0; JOB_ROOM];
        let degree = coeffs.1;
        let shown = format_args!(
            "modulus={modulus}\ndegree={degree}\ncoeffs={coeffs}\nweights={weights}\n"
        );
        job(rt, JOBS.len() + i + 1, long::text(&mut room, shown));
    }
}

fn lent(rt: &impl Print) {
    let text = b"modulus=257\ndegree=1\ncoeffs=0\nweights=1\n";
    // 63 words lent
    job_lent(rt, 1, text, 63, 64);
    // 63 weights lent
    job_lent(rt, 2, text, 64, 63);
    // 63 words lent, no job
    job_lent(rt, 3, b"job", 63, 64);
    // 64 and 64 lent
    job_lent(rt, 4, text, 64, 64);
    let reply = b"modulus=257\ndegree=1\nsimple=yes\ncoeffs=0\n";
    // 1023 words lent
    answer_lent(rt, 5, reply, 1023);
    // 1023 words lent, no answer
    answer_lent(rt, 6, b"answer", 1023);
    // 1024 words lent
    answer_lent(rt, 7, reply, 1024);
}

const ANSWERS: [&[u8]; 4] = [
    // the document's example
    b"modulus=257\ndegree=6\nsimple=yes\ncoeffs=0,0,0,4,0,0\n",
    // the other mark
    b"modulus=257\ndegree=1\nsimple=no\ncoeffs=256\n",
    // neither mark
    b"modulus=257\ndegree=1\nsimple=maybe\ncoeffs=256\n",
    // other degree
    b"modulus=257\ndegree=2\nsimple=yes\ncoeffs=256\n",
];

const LONG_ANSWERS: [(u32, &str, Repeated); 3] = [
    // 1,024 coefficients
    (257, "no", Repeated(1, 1024)),
    // 1,025 coefficients
    (257, "no", Repeated(1, 1025)),
    // longest answer
    (4294967295, "yes", Repeated(4294967295, 1024)),
];

fn answers(rt: &impl Print) {
    for (i, text) in ANSWERS.iter().enumerate() {
        answer(rt, i + 1, text);
    }
}

fn long_answers(rt: &impl Print) {
    for (i, &(modulus, mark, coeffs)) in LONG_ANSWERS.iter().enumerate() {
        let mut room = [0; ANSWER_ROOM];
        let degree = coeffs.1;
        let shown = format_args!(
            "modulus={modulus}\ndegree={degree}\nsimple={mark}\ncoeffs={coeffs}\n"
        );
        answer(rt, ANSWERS.len() + i + 1, long::text(&mut room, shown));
    }
}

fn written_jobs(rt: &impl Print) {
    let coeffs = [0, 0, 0, 256];
    let weights = [1, -1];
    // three bytes more
    put_job(rt, 1, &coeffs, &weights, 54);
    // exactly long enough
    put_job(rt, 2, &coeffs, &weights, 51);
    // one byte shorter
    put_job(rt, 3, &coeffs, &weights, 50);
    // no coefficients
    put_job(rt, 4, &[], &weights, 60);
    // 65 coefficients, no room
    put_job(rt, 5, &[0; MANY_NUMBERS], &weights, 0);
    // weight 1000, no room
    put_job(rt, 6, &coeffs, &[1000], 0);
}

fn written_answers(rt: &impl Print) {
    let coeffs = [0, 0, 0, 4, 0, 0];
    // three bytes more
    put_answer(rt, 1, true, &coeffs, 54);
    // exactly long enough
    put_answer(rt, 2, true, &coeffs, 51);
    // one byte shorter
    put_answer(rt, 3, true, &coeffs, 50);
    // not simple
    put_answer(rt, 4, false, &coeffs, 50);
    // no coefficients, no room
    put_answer(rt, 5, true, &[], 0);
    // 1025 coefficients, no room
    put_answer(rt, 6, true, &[0; MANY_COEFFICIENTS], 0);
}

fn main(rt: HostRuntime) {
    let _ = println!(rt; "-- jobs");
    jobs(&rt);
    long_jobs(&rt);
    let _ = println!(rt; "-- answers");
    answers(&rt);
    long_answers(&rt);
    let _ = println!(rt; "-- slices too short, and just long enough");
    lent(&rt);
    let _ = println!(rt; "-- jobs written");
    written_jobs(&rt);
    let _ = println!(rt; "-- answers written");
    written_answers(&rt);
}
