//! What no clause says of the program's words: what the system hands over, and what becomes of it.

use road_run::typed_words_of;
use std::alloc::AllocError;
use std::env::FillError;
use std::rt::Env;

// A command line of these words.
#[derive(Clone, Copy)]
struct Typed<'a> {
    words: &'a [&'a str],
}

impl Env for Typed<'_> {
    fn arg(&self, i: usize, buf: &mut [u8]) -> Result<usize, FillError> {
        let Some(word) = self.words.get(i) else {
            return Err(FillError::NotPresent);
        };
        if word.len() > buf.len() {
            return Err(FillError::TooLong);
        }
        buf[..word.len()].copy_from_slice(word.as_bytes());
        Ok(word.len())
    }

    fn var(&self, _name: &str, _buf: &mut [u8]) -> Result<usize, FillError> {
        Err(FillError::NotPresent)
    }

    fn var_at(&self, _i: usize, _buf: &mut [u8]) -> Result<usize, FillError> {
        Err(FillError::NotPresent)
    }
}

// Words, the first of which is the program's, with a bar between each two of them.
const TYPED: &str = "road_router|ask|a map||-|more";

#[test]
fn words_come_whole(rt: HostRuntime) -> Result<(), AllocError> {
    let mut typed: Vec<&str> = Vec::new(rt.alloc());
    for word in TYPED.split('|') {
        typed.push(word)?;
    }
    let words = typed_words_of(&(
        Typed {
            words: typed.as_slice(),
        },
        rt.alloc(),
    ))?;
    assert_eq!(rt; words.len(), 5);
    let mut expected = TYPED.split('|');
    assert!(rt; expected.next().is_some());
    for word in words.iter() {
        assert_eq!(rt; Some(word.as_str()), expected.next());
    }
    Ok(())
}
