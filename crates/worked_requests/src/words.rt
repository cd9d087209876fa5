//! What no clause says: that words are read with ample memory, and what some words make.

use command_words::read_words;
use std::alloc::{AllocError, Global};
use std::process::Abort;

// The words of a line, with a blank between each two.
fn words_of(alloc: Global, line: &str) -> Result<Vec<String>, AllocError> {
    let mut words = Vec::new(alloc);
    for word in line.split(' ') {
        words.push(String::from_str(alloc, word)?)?;
    }
    Ok(words)
}

// What words make.
fn made_of(alloc: Global, words: &[String]) -> Result<String, AllocError> {
    format!(in alloc; "{:?}", read_words(alloc, words))
}

// What the words of a line make.
fn told(alloc: Global, line: &str) -> Result<String, AllocError> {
    let words = words_of(alloc, line)?;
    made_of(alloc, words.as_slice())
}

// Asserts that the words of each line of a table make what its row says: the line, and what is told of it, with a bar
// between the two. A table is one text, since a proof takes time for each value of a list.
fn assert_told(rt: &impl Abort, alloc: Global, table: &str) -> Result<(), AllocError> {
    for row in table.split('\n') {
        let mut parts = row.split('|');
        let (Some(line), Some(want)) = (parts.next(), parts.next()) else {
            panic!(rt; "a row of two");
        };
        assert_eq!(rt; told(alloc, line)?.as_str(), want, "{line}");
    }
    Ok(())
}

// Asserts that the words of each line of a text make none.
fn assert_none(rt: &impl Abort, alloc: Global, lines: &str) -> Result<(), AllocError> {
    for line in lines.split('\n') {
        assert_eq!(rt; told(alloc, line)?.as_str(), "Err(Unknown)", "{line}");
    }
    Ok(())
}

const OVER_A_MAP: &str = "check map settings|Ok(Check(\"map\", \"settings\"))
ask map settings|Ok(Ask(\"map\", \"settings\"))
ask -- map settings|Ok(Ask(\"map\", \"settings\"))
ask settings map|Ok(Ask(\"settings\", \"map\"))";

#[test]
fn words_that_make_a_command(rt: HostRuntime) -> Result<(), AllocError> {
    assert_told(&rt, rt.alloc(), OVER_A_MAP)
}

const OVER_A_TOWN: &str = "town 2|Ok(Town(2))
town 1000|Ok(Town(1000))
drill +020|Ok(Drill(20))";

const NO_TOWN: &str = "town
town 1
town 1001
town -2
town 2 2
drill x
drill 1";

#[test]
fn words_over_a_town(rt: HostRuntime) -> Result<(), AllocError> {
    assert_told(&rt, rt.alloc(), OVER_A_TOWN)?;
    assert_none(&rt, rt.alloc(), NO_TOWN)
}

const LEAST_WORDS: &str = "serve map settings --listen a --control b";

const LEAST_SERVED: &str =
    "Ok(Serve(ServeWords { map: \"map\", settings: \"settings\", listen: \"a\", control: \"b\", \
    workers: 4, speeds: None, turns: None }))";

const MOST_WORDS: &str =
    "serve --turn-penalty-file=t --control=b map --workers +064 settings --listen=a --segment-speed-file s";

const MOST_SERVED: &str =
    "Ok(Serve(ServeWords { map: \"map\", settings: \"settings\", listen: \"a\", control: \"b\", \
    workers: 64, speeds: Some(\"s\"), turns: Some(\"t\") }))";

#[test]
fn words_that_serve(rt: HostRuntime) -> Result<(), AllocError> {
    assert_eq!(rt; told(rt.alloc(), LEAST_WORDS)?.as_str(), LEAST_SERVED);
    assert_eq!(rt; told(rt.alloc(), MOST_WORDS)?.as_str(), MOST_SERVED);
    Ok(())
}

const NO_COMMAND: &str = "ask
ask map
ask map settings more
check map
Ask map settings
map ask settings
ask --fast map settings
help
help ask
--help
ask -h map settings";

#[test]
fn words_that_make_none(rt: HostRuntime) -> Result<(), AllocError> {
    assert_eq!(rt; made_of(rt.alloc(), &[])?.as_str(), "Err(Unknown)");
    assert_none(&rt, rt.alloc(), NO_COMMAND)
}

const NO_SERVER: &str = "serve map settings
serve map settings --listen a
serve map settings --control b
serve map --listen=a --control=b
serve map settings --listen=a --control=b --workers=0
serve map settings --listen=a --control=b --workers=65
serve map settings --listen=a --control=b --workers=x
serve map settings --listen=a --control=b --listen=a";

#[test]
fn words_that_serve_nothing(rt: HostRuntime) -> Result<(), AllocError> {
    assert_none(&rt, rt.alloc(), NO_SERVER)
}
