// How words are shown.
use std::fmt;

// The words, with commas between them.
#[derive(Clone, Copy)]
pub struct Words<'a>(pub &'a [u32]);

impl fmt::Display for Words<'_> {
    fn fmt<W: fmt::Write>(&self, f: &mut fmt::Formatter<W>) -> fmt::Result {
        let words = self.0;
        for (i, &word) in words.iter().enumerate() {
            if i > 0 {
                f.write_str(",")?;
            }
            write!(f, "{word}")?;
        }
        Ok(())
    }
}

// How many words stand in full; of more the first FEW_SHOWN and the last.
const MOST_SHOWN: usize = 9;

const FEW_SHOWN: usize = 8;

// The coefficients of a resolvent, behind a comma; of many the first eight and the last.
#[derive(Clone, Copy)]
pub struct Coefficients<'a>(pub &'a [u32]);

impl fmt::Display for Coefficients<'_> {
    fn fmt<W: fmt::Write>(&self, f: &mut fmt::Formatter<W>) -> fmt::Result {
        let words = self.0;
        match words.last() {
            None => Ok(()),
            Some(last) if words.len() > MOST_SHOWN => {
                write!(f, ", {},..,{last}", Words(&words[..FEW_SHOWN]))
            }
            Some(_) => write!(f, ", {}", Words(words)),
        }
    }
}
