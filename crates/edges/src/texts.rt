// The same cases and edges as texts: what `linres` reads, and what it writes for it. Of a long answer the first bytes are shown.

// A text by its name.
type Text<'a> = (&'a str, &'a [u8]);

const MOST_SHOWN: usize = 120;

// The bytes, or the first 120 where there are more.
fn shown(rt: &impl Print, text: &[u8]) {
    let end = if text.len() > MOST_SHOWN { "..\n" } else { "" };
    let _ = rt.write_all(text.get(..MOST_SHOWN).unwrap_or(text));
    let _ = print!(rt; "{end}");
}

fn ask(rt: &impl Print, name: &str, text: &[u8]) {
    let mut out = [7; limits::LONGEST_ANSWER];
    let len = linres_text::answer_text(text, &mut out).unwrap_or_default();
    let _ = println!(rt; "{name}");
    shown(rt, out.get(..len).unwrap_or(&[]));
}

fn asked(rt: &impl Print, texts: &[Text]) {
    for &(name, text) in texts {
        ask(rt, name, text);
    }
}

const CASES: [Text; 12] = [
    ("A", b"modulus=257\ndegree=1\ncoeffs=254\nweights=5\n"),
    ("B", b"modulus=257\ndegree=2\ncoeffs=254,2\nweights=1,1\n"),
    ("C", b"modulus=257\ndegree=2\ncoeffs=254,2\nweights=1,2\n"),
    ("D", b"modulus=257\ndegree=2\ncoeffs=254,2\nweights=1,-1\n"),
    ("E", b"modulus=257\ndegree=2\ncoeffs=255,1\nweights=1,-1\n"),
    ("F", b"modulus=257\ndegree=2\ncoeffs=0,254\nweights=1,-1\n"),
    ("G", b"modulus=257\ndegree=3\ncoeffs=0,0,256\nweights=1,1\n"),
    (
        "H",
        b"modulus=257\ndegree=3\ncoeffs=251,11,251\nweights=1,1\n",
    ),
    (
        "I",
        b"modulus=257\ndegree=3\ncoeffs=251,11,251\nweights=1,1,1\n",
    ),
    (
        "J",
        b"modulus=257\ndegree=3\ncoeffs=251,11,251\nweights=2,1\n",
    ),
    (
        "K",
        b"modulus=257\ndegree=4\ncoeffs=0,0,0,256\nweights=1,1\n",
    ),
    ("L", b"modulus=257\ndegree=4\ncoeffs=0,0,0,1\nweights=1,1\n"),
];

const MODULI: [Text; 5] = [
    ("251", b"modulus=251\ndegree=2\ncoeffs=0,1\nweights=1\n"),
    ("257", b"modulus=257\ndegree=2\ncoeffs=0,1\nweights=1\n"),
    ("259", b"modulus=259\ndegree=2\ncoeffs=0,1\nweights=1\n"),
    (
        "2147483647",
        b"modulus=2147483647\ndegree=2\ncoeffs=0,1\nweights=1\n",
    ),
    (
        "2147483648",
        b"modulus=2147483648\ndegree=2\ncoeffs=0,1\nweights=1\n",
    ),
];

const NUMBERS: [Text; 9] = [
    (
        "924 at 257",
        b"modulus=257\ndegree=12\ncoeffs=1,2,3,4,5,6,7,8,9,10,11,12\nweights=1,1,1,1,1,1\n",
    ),
    (
        "924 at 1009",
        b"modulus=1009\ndegree=12\ncoeffs=1,2,3,4,5,6,7,8,9,10,11,12\nweights=1,1,1,1,1,1\n",
    ),
    (
        "990 at 1009",
        b"modulus=1009\ndegree=11\ncoeffs=1,2,3,4,5,6,7,8,9,10,11\nweights=1,2,3\n",
    ),
    (
        "1320",
        b"modulus=1009\ndegree=12\ncoeffs=1,2,3,4,5,6,7,8,9,10,11,12\nweights=1,2,3\n",
    ),
    (
        "252 at 257",
        b"modulus=257\ndegree=10\ncoeffs=1,2,3,4,5,6,7,8,9,10\nweights=1,1,1,1,1\n",
    ),
    (
        "336 at 257",
        b"modulus=257\ndegree=8\ncoeffs=1,2,3,4,5,6,7,8\nweights=1,2,3\n",
    ),
    (
        "251, weight 0",
        b"modulus=251\ndegree=1\ncoeffs=1\nweights=0\n",
    ),
    ("weights=0", b"modulus=257\ndegree=1\ncoeffs=1\nweights=0\n"),
    ("weights=", b"modulus=257\ndegree=1\ncoeffs=1\nweights=\n"),
];

// Seven weights are a good record: rules 2 to 5 come first, then 6.
const SEVEN_WEIGHTS: [Text; 5] = [
    (
        "seven weights",
        b"modulus=257\ndegree=2\ncoeffs=1,2\nweights=1,1,1,1,1,1,1\n",
    ),
    (
        "and 251",
        b"modulus=251\ndegree=2\ncoeffs=1,2\nweights=1,1,1,1,1,1,1\n",
    ),
    (
        "and 259",
        b"modulus=259\ndegree=2\ncoeffs=1,2\nweights=1,1,1,1,1,1,1\n",
    ),
    (
        "and n = 13",
        b"modulus=257\ndegree=13\ncoeffs=1,1,1,1,1,1,1,1,1,1,1,1,1\nweights=1,1,1,1,1,1,1\n",
    ),
    (
        "and a coefficient 257",
        b"modulus=257\ndegree=2\ncoeffs=1,257\nweights=1,1,1,1,1,1,1\n",
    ),
];

// Texts that are no job.
const NOT_JOBS: [Text; 6] = [
    (
        "no last line feed",
        b"modulus=257\ndegree=1\ncoeffs=1\nweights=1",
    ),
    (
        "one more line feed",
        b"modulus=257\ndegree=1\ncoeffs=1\nweights=1\n\n",
    ),
    (
        "degree 2 of one coefficient",
        b"modulus=257\ndegree=2\ncoeffs=1\nweights=1\n",
    ),
    (
        "leading zero",
        b"modulus=0257\ndegree=1\ncoeffs=1\nweights=1\n",
    ),
    ("-0", b"modulus=257\ndegree=1\ncoeffs=1\nweights=-0\n"),
    (
        "4294967296",
        b"modulus=4294967296\ndegree=1\ncoeffs=1\nweights=1\n",
    ),
];

pub fn all(rt: &impl Print) {
    let _ = println!(rt; "-- cases as texts");
    asked(rt, &CASES);
    let _ = println!(rt; "-- edges as texts");
    asked(rt, &MODULI);
    asked(rt, &NUMBERS);
    let _ = println!(rt; "-- seven weights as texts");
    asked(rt, &SEVEN_WEIGHTS);
    let _ = println!(rt; "-- texts that are no job");
    ask(rt, "no text", b"");
    ask(rt, "4,097 bytes", &[b'1'; limits::LONGEST_TEXT + 1]);
    asked(rt, &NOT_JOBS);
}
