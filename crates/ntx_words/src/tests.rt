use super::*;
use ntx_num::Fail;
use std::process::Abort;
use std::test::Fail as TestFail;

mod accepted;
mod refused;

/// The words of a command line, which one space separates from one another.
fn words_of<R: AllocGlobal>(rt: &R, line: &str) -> Result<Vec<String>, TestFail> {
    let mut words = Vec::new(rt.alloc());
    for word in line.split(' ') {
        words.push(String::from_str(rt.alloc(), word)?)?;
    }
    Ok(words)
}

/// What these words ask for, or None if they are refused.
fn read<R: Abort + AllocGlobal>(rt: &R, words: &[String]) -> Option<Words> {
    match read_words(rt.alloc(), words) {
        Ok(line) => Some(line),
        Err(Fail::Is(BadWords)) => None,
        Err(Fail::NoMemory) => panic!(rt; "memory ran out"),
    }
}
