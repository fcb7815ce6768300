// Document 01's cases A to L and the calls at its edges, through the resolvent entry, and then as texts. Each line tells what came
// back: the code, N, the mark, the number of lists worked and the first words of output. What cannot be written is left out.
#![tactic(auto)]

mod texts;
mod words;

use checks::Refusal;
use resolvents::Summary;
use weights::Weights;
use words::{Coefficients, Words};

// A job by its name: p, f, how many weights there are, and the places that hold them: count and places are the two fields of `Weights`,
// which a table without names shows more plainly.
type Job<'a> = (&'a str, u32, &'a [u32], usize, [i32; limits::CAPACITY]);

// Weights by their name, the same.
type Listed<'a> = (&'a str, usize, [i32; limits::CAPACITY]);

fn told(rt: &impl Print, name: &str, answer: Result<Summary, Refusal>, out: &[u32]) {
    let code = checks::code(&answer);
    let Summary {
        count,
        simple,
        lists,
    } = answer.unwrap_or_default();
    let mark = if simple { "yes" } else { "no" };
    let coefficients = Coefficients(out.get(..count).unwrap_or(&[]));
    let _ = println!(rt;
        "{name}: code {code}, N {count}, simple {mark}, lists {lists}{coefficients}"
    );
}

// A call with as much room as any call needs.
fn job(rt: &impl Print, name: &str, p: u32, f: &[u32], list: Weights) {
    let mut out = [7; limits::MOST_PLACEMENTS];
    let mut work = [7; limits::LARGEST_ROOM];
    let answer = resolvents::resolvent(p, f, list, &mut out, &mut work);
    told(rt, name, answer, &out);
}

fn worked(rt: &impl Print, jobs: &[Job]) {
    for &(name, p, f, len, places) in jobs {
        job(rt, name, p, f, Weights { places, len });
    }
}

// What jobs cost, told without working them: the same numbers, or row 6 or 8.
fn costs(rt: &impl Print, jobs: &[Listed]) {
    for &(name, len, places) in jobs {
        let lists = resolvents::lists(Weights { places, len });
        let code = checks::code(&lists);
        let _ = println!(rt; "{name}: code {code}, lists {}", lists.unwrap_or_default());
    }
}

// Case C's f with two weights and the room that is lent, and what is left there.
fn lent(rt: &impl Print, name: &str, weights: &[i32], out: &mut [u32], work: &mut [u32]) {
    let answer = resolvents::resolvent_for(257, &[254, 2], weights, out, work);
    told(rt, name, answer, out);
    let _ = println!(rt; "  output {}\n  work {}", Words(out), Words(work));
}

const QUARTIC: [u32; 4] = [0, 0, 0, 256];

const SIX: [u32; 6] = [1, 2, 3, 4, 5, 6];

const EIGHT: [u32; 8] = [1, 2, 3, 4, 5, 6, 7, 8];

const TEN: [u32; 10] = [1, 2, 3, 4, 5, 6, 7, 8, 9, 10];

const ELEVEN: [u32; 11] = [1, 2, 3, 4, 5, 6, 7, 8, 9, 10, 11];

const TWELVE: [u32; 12] = [1, 2, 3, 4, 5, 6, 7, 8, 9, 10, 11, 12];

const PAIR: [i32; limits::CAPACITY] = [1, 1, 0, 0, 0, 0];

const ONE_TWO_THREE: [i32; limits::CAPACITY] = [1, 2, 3, 0, 0, 0];

const CASES: [Job; 12] = [
    ("A", 257, &[254], 1, [5, 0, 0, 0, 0, 0]),
    ("B", 257, &[254, 2], 2, [1, 1, 0, 0, 0, 0]),
    ("C", 257, &[254, 2], 2, [1, 2, 0, 0, 0, 0]),
    ("D", 257, &[254, 2], 2, [1, -1, 0, 0, 0, 0]),
    ("E", 257, &[255, 1], 2, [1, -1, 0, 0, 0, 0]),
    ("F", 257, &[0, 254], 2, [1, -1, 0, 0, 0, 0]),
    ("G", 257, &[0, 0, 256], 2, [1, 1, 0, 0, 0, 0]),
    ("H", 257, &[251, 11, 251], 2, [1, 1, 0, 0, 0, 0]),
    ("I", 257, &[251, 11, 251], 3, [1, 1, 1, 0, 0, 0]),
    ("J", 257, &[251, 11, 251], 2, [2, 1, 0, 0, 0, 0]),
    ("K", 257, &[0, 0, 0, 256], 2, [1, 1, 0, 0, 0, 0]),
    ("L", 257, &[0, 0, 0, 1], 2, [1, 1, 0, 0, 0, 0]),
];

// x^4 - 1 with the weights 1,1, at moduli around the least and the largest.
const MODULI: [Job; 5] = [
    ("251", 251, &QUARTIC, 2, PAIR),
    ("257", 257, &QUARTIC, 2, PAIR),
    ("259", 259, &QUARTIC, 2, PAIR),
    ("2147483647", 2147483647, &QUARTIC, 2, PAIR),
    ("2147483648", 2147483648, &QUARTIC, 2, PAIR),
];

// Numbers of placements around 1,024 and around p.
const NUMBERS: [Job; 8] = [
    ("924 at 257", 257, &TWELVE, 6, [1; 6]),
    ("924 at 1009", 1009, &TWELVE, 6, [1; 6]),
    ("990 at 1009", 1009, &ELEVEN, 3, ONE_TWO_THREE),
    ("1320 at 1009", 1009, &TWELVE, 3, ONE_TWO_THREE),
    ("1320 at 257", 257, &TWELVE, 3, ONE_TWO_THREE),
    ("252 at 257", 257, &TEN, 5, [1; 6]),
    ("336 at 257", 257, &EIGHT, 3, ONE_TWO_THREE),
    (
        "840 at 2147483647",
        2147483647,
        &EIGHT,
        4,
        [16, -16, 1, 1, 0, 0],
    ),
];

// Degrees and counts of weights at their bounds.
const COUNTS: [Job; 6] = [
    ("n = 0", 257, &[0; 0], 2, [1; 6]),
    ("n = 13", 257, &[1; 13], 2, [1; 6]),
    ("r = 0", 257, &[254, 2], 0, [1; 6]),
    ("r = 7", 257, &[1; 7], 7, [1; 6]),
    ("r = 3 above n = 2", 257, &[254, 2], 3, [1; 6]),
    ("r = n = 6", 257, &SIX, 6, [1; 6]),
];

// Weights and coefficients at theirs.
const SIZES: [Job; 7] = [
    ("weight 0", 257, &[254, 2], 1, [0; 6]),
    ("weight 16", 257, &[254, 2], 1, [16; 6]),
    ("weight 17", 257, &[254, 2], 1, [17; 6]),
    ("weight -16", 257, &[254, 2], 1, [-16; 6]),
    ("weight -17", 257, &[254, 2], 1, [-17; 6]),
    ("coefficient 256", 257, &[256, 2], 2, [1; 6]),
    ("coefficient 257", 257, &[254, 257], 2, [1; 6]),
];

// Calls that break several rules: the first in document 01's order tells.
const ORDERS: [Job; 6] = [
    ("251, weight 0", 251, &[254, 2], 1, [0; 6]),
    (
        "n = 13, large coefficients",
        257,
        &[4294967295; 13],
        0,
        [0; 6],
    ),
    ("coefficient 257, no weights", 257, &[257], 0, [0; 6]),
    ("r = 7 above n = 2", 257, &[254, 2], 7, [0; 6]),
    ("r = 3 above n = 2, weights 0", 257, &[254, 2], 3, [0; 6]),
    (
        "1320 placements, a weight 0",
        257,
        &[0; 12],
        3,
        [1, 2, 0, 0, 0, 0],
    ),
];

// Places after the r-th count for nothing.
const PLACES: [Job; 2] = [
    ("zeros behind", 257, &[254, 2], 2, [1, 2, 0, 0, 0, 0]),
    (
        "others behind",
        257,
        &[254, 2],
        2,
        [1, 2, 99, 0, -7, 2147483647],
    ),
];

// Lists worked: the number goes by the job's order, and equal collisions are merged.
const LISTS: [Job; 3] = [
    ("1,1,1,1,2,-1", 1009, &SIX, 6, [1, 1, 1, 1, 2, -1]),
    ("-1,2,1,1,1,1", 1009, &SIX, 6, [-1, 2, 1, 1, 1, 1]),
    ("no sums equal", 1009, &SIX, 6, [1, 2, 4, 8, 16, -5]),
];

const COSTS: [Listed; 8] = [
    ("1,1,1,1,2,-1", 6, [1, 1, 1, 1, 2, -1]),
    ("-1,2,1,1,1,1", 6, [-1, 2, 1, 1, 1, 1]),
    ("no sums equal", 6, [1, 2, 4, 8, 16, -5]),
    ("one weight", 1, [5, 0, 0, 0, 0, 0]),
    ("none", 0, [1, 1, 1, 1, 1, 1]),
    ("seven, of which one is 0", 7, [0, 1, 1, 1, 1, 1]),
    ("weight 0", 2, [1, 0, 1, 1, 1, 1]),
    ("weight 17", 2, [17, 1, 1, 1, 1, 1]),
];

// Output and work room: more than enough, one word fewer of each and of both, and exactly enough.
fn room(rt: &impl Print) {
    let pair = [1, 1];
    let apart = [1, 2];
    let mut out = [7, 8, 9, 10];
    let mut work = [7; 27];
    let mut two = [7; 2];
    let mut enough = [7; 36];
    let mut one = [7; 1];
    let mut fewer = [7; 35];
    lent(rt, "words to spare", &pair, &mut out, &mut work);
    lent(rt, "one output word fewer", &apart, &mut one, &mut enough);
    lent(rt, "one work word fewer", &apart, &mut two, &mut fewer);
    lent(rt, "one fewer of each", &apart, &mut one, &mut fewer);
    lent(rt, "exactly enough", &apart, &mut two, &mut enough);
}

fn main(rt: HostRuntime) {
    let _ = println!(rt; "-- cases");
    worked(&rt, &CASES);
    let _ = println!(rt; "-- moduli");
    worked(&rt, &MODULI);
    let _ = println!(rt; "-- numbers of placements");
    worked(&rt, &NUMBERS);
    let _ = println!(rt; "-- bounds");
    worked(&rt, &COUNTS);
    worked(&rt, &SIZES);
    let _ = println!(rt; "-- the first rule broken");
    worked(&rt, &ORDERS);
    let _ = println!(rt; "-- places after the r-th");
    worked(&rt, &PLACES);
    let _ = println!(rt; "-- lists worked");
    worked(&rt, &LISTS);
    let _ = println!(rt; "-- lists told without working them");
    costs(&rt, &COSTS);
    let _ = println!(rt; "-- room");
    room(&rt);
    texts::all(&rt);
}
