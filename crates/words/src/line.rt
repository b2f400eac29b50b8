//! A line of a policy text as its keyword and words.
ghost use Rattle.std.specs.Prelude.{◌≡◌, option_map};
ghost use Rattle.words.specs.Words.{words_of};
ghost use Rattle.words.specs.Left.{left};
ghost use Rattle.words.specs.Lines.{line_of, one_or_more, context_of, constrain_of, vector_of, grant_of, property_of};
ghost use Rattle.words.specs.Said.{said};

use crate::word::{Word, Words};

/// A line by its keyword, with the words behind that, each a part of the text.
#[derive(Clone, Copy, Debug, PartialEq, Eq)]
pub enum Line<'a> {
    Context {
        name: Word<'a>,
        level: Word<'a>,
        owner: Word<'a>,
    },
    Constrain {
        operations: Words<'a>,
    },
    Vector {
        subject: Word<'a>,
        target: Word<'a>,
        operations: Words<'a>,
    },
    Grant {
        number: Word<'a>,
        subjects: Word<'a>,
        targets: Word<'a>,
        operations: Words<'a>,
    },
    Property {
        number: Word<'a>,
        template: Word<'a>,
        first: Word<'a>,
        second: Option<Word<'a>>,
    },
}

/// The words, if there is one.
fn one_or_more(words: Words<'_>) -> Option<Words<'_>>
    ensures { option_map left result ≡ one_or_more (left words.entry) }
{
    let mut after = words;
    after.next()?;
    Some(words)
}

fn context(mut words: Words<'_>) -> Option<Line<'_>>
    ensures { option_map said result ≡ context_of (left words.entry) }
{
    let name = words.next()?;
    let level = words.next()?;
    let owner = words.next()?;
    match words.next() {
        Some(_) => None,
        None => Some(Line::Context { name, level, owner }),
    }
}

fn constrain(words: Words<'_>) -> Option<Line<'_>>
    ensures { option_map said result ≡ constrain_of (left words.entry) }
{
    let operations = one_or_more(words)?;
    Some(Line::Constrain { operations })
}

fn vector(mut words: Words<'_>) -> Option<Line<'_>>
    ensures { option_map said result ≡ vector_of (left words.entry) }
{
    let subject = words.next()?;
    let target = words.next()?;
    let operations = one_or_more(words)?;
    Some(Line::Vector {
        subject,
        target,
        operations,
    })
}

fn grant(mut words: Words<'_>) -> Option<Line<'_>>
    ensures { option_map said result ≡ grant_of (left words.entry) }
{
    let number = words.next()?;
    let subjects = words.next()?;
    let targets = words.next()?;
    let operations = one_or_more(words)?;
    Some(Line::Grant {
        number,
        subjects,
        targets,
        operations,
    })
}

fn property(mut words: Words<'_>) -> Option<Line<'_>>
    ensures { option_map said result ≡ property_of (left words.entry) }
{
    let number = words.next()?;
    let template = words.next()?;
    let first = words.next()?;
    let second = words.next();
    match words.next() {
        Some(_) => None,
        None => Some(Line::Property {
            number,
            template,
            first,
            second,
        }),
    }
}

impl<'a> Line<'a> {
    /// What a line says. None: its keyword is unknown, or its number of words is wrong.
    pub fn read(line: &'a [u8]) -> Option<Line<'a>>
        ensures { option_map said result ≡ line_of (words_of line.now) }
    {
        let mut words = Words::of(line);
        let keyword = words.next()?.bytes;
        if keyword == b"context".as_slice() {
            context(words)
        } else if keyword == b"constrain".as_slice() {
            constrain(words)
        } else if keyword == b"vector".as_slice() {
            vector(words)
        } else if keyword == b"grant".as_slice() {
            grant(words)
        } else if keyword == b"property".as_slice() {
            property(words)
        } else {
            None
        }
    }
}
