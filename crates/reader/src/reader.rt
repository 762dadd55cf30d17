// One character of the text.
ghost use Rattle.std.specs.Prelude.{◌≡◌};
ghost use Rattle.reader.specs.Reader.{start_of, quiet_of, idle_of, shut_of, gap_of, spaced_of, naming_of, plain_of, step_of, read_of};

use crate::draft::{Draft, has_failed};
use crate::kinds::{Emit, Expected, Kind, Phase};
use crate::letter::{digit, sign};
use crate::line::{line_end, taken};
use crate::sign::Sign;
use crate::word::{Form, Word, blank, colon, dollar, letter, meaning};

#[derive(Clone, Copy, PartialEq, Eq, Debug)]
pub struct Reader {
    pub word: Word,
    pub draft: Draft,
}

// Before the first character.
pub fn start() -> Reader
    ensures { result ≡ start_of }
{
    Reader {
        word: blank(Form::Between),
        draft: Draft {
            phase: Phase::Nothing,
            expected: Expected::Line,
            kind: Kind::Nothing,
            b1: 0,
            b2: 0,
            b3: 0,
            b4: 0,
            emit: Emit::Nothing,
        },
    }
}

// What was completed before is done with.
fn quiet(d: Draft) -> Draft
    ensures { result ≡ quiet_of d }
{
    Draft {
        emit: Emit::Nothing,
        ..d
    }
}

// A form that is no word: between words, comment, file name.
fn idle(form: Form) -> bool
    ensures { result ≡ idle_of form }
{
    matches!(form, Form::Between | Form::Comment | Form::Name)
}

// The draft when the word ends.
#[tactic(auto, unfolding(crate::specs::Reader::shut_of))]
fn shut(w: Word, d: Draft) -> Draft
    ensures { result ≡ shut_of w d }
{
    if idle(w.form) {
        return d;
    }
    taken(d, meaning(w))
}

// Behind `file` all up to the line's end or a comment is the name.
fn gap(expected: Expected) -> Form
    ensures { result ≡ gap_of expected }
{
    match expected {
        Expected::FileName => Form::Name,
        _ => Form::Between,
    }
}

#[tactic(auto, unfolding(crate::specs::Reader::spaced_of))]
fn spaced(w: Word, d: Draft) -> Reader
    ensures { result ≡ spaced_of w d }
{
    let draft = shut(w, d);
    Reader {
        word: blank(gap(draft.expected)),
        draft,
    }
}

// A character of a file name.
#[tactic(auto, unfolding(crate::specs::Reader::naming_of))]
fn naming(word: Word, draft: Draft, s: Sign) -> Reader
    ensures { result ≡ naming_of word draft s }
{
    match s {
        Sign::Comment => Reader {
            word: blank(Form::Comment),
            draft,
        },
        Sign::Space => Reader { word, draft },
        _ => Reader {
            word,
            draft: Draft {
                expected: Expected::End,
                ..draft
            },
        },
    }
}

// A character of a word or a number.
#[tactic(auto, unfolding(crate::specs::Reader::plain_of))]
fn plain(w: Word, s: Sign, c: u8) -> Word
    ensures { result ≡ plain_of w s c }
{
    match (s, digit(c)) {
        (Sign::Dollar, _) => dollar(w),
        (Sign::Colon, _) => colon(w),
        (_, Some(d)) => letter(w, d),
        (_, None) => blank(Form::Bad),
    }
}

// A character of sign s, where nothing has failed.
#[tactic(auto, unfolding(crate::specs::Reader::step_of))]
fn step(word: Word, draft: Draft, s: Sign, c: u8) -> Reader
    ensures { result ≡ step_of word draft s c }
{
    match (s, word.form) {
        (Sign::LineEnd, _) => Reader {
            word: blank(Form::Between),
            draft: line_end(shut(word, draft)),
        },
        (_, Form::Comment) => Reader { word, draft },
        (_, Form::Name) => naming(word, draft, s),
        (Sign::Comment, _) => Reader {
            word: blank(Form::Comment),
            draft: shut(word, draft),
        },
        (Sign::Space, _) => spaced(word, draft),
        _ => Reader {
            word: plain(word, s, c),
            draft,
        },
    }
}

// One character more; after a failure nothing changes.
#[tactic(auto, unfolding(crate::specs::Reader::read_of))]
pub fn read(r: Reader, c: u8) -> Reader
    ensures { result ≡ read_of r c }
{
    if has_failed(r.draft) {
        return r;
    }
    step(r.word, quiet(r.draft), sign(c), c)
}
