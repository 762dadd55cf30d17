// A word while it is read: its form, its value so far, and the bank before a colon.
ghost use Rattle.std.specs.Prelude.{◌≡◌};
ghost use Rattle.reader.specs.Word.{blank_word, in_name, base_of, after_of, opened_of, grown_of, letter_of, dollar_of, colon_of, banked_of, meaning_of};

#[derive(Clone, Copy, PartialEq, Eq, Debug)]
pub enum Form {
    // Between words.
    Between,
    Letters,
    // `$` alone, and with digits behind it.
    Dollar,
    Hex,
    // `:` behind these, and with digits behind it.
    Colon,
    Banked,
    Decimal,
    // Characters of a comment, and of a file name.
    Comment,
    Name,
    // No word at all.
    Bad,
}

// Letters count in base 36, so that a word's value names it.
#[derive(Clone, Copy, PartialEq, Eq, Debug)]
pub struct Word {
    pub form: Form,
    pub value: u64,
    pub bank: u64,
}

// What a whole word is.
#[derive(Clone, Copy, PartialEq, Eq, Debug)]
pub enum Token {
    Letters(u64),
    Number(u64),
}

pub fn blank(form: Form) -> Word
    ensures { result ≡ blank_word form }
{
    Word {
        form,
        value: 0,
        bank: 0,
    }
}

pub fn in_name(w: Word) -> bool
    ensures { result ≡ in_name w }
{
    matches!(w.form, Form::Name)
}

fn base(form: Form) -> u8
    ensures { result ≡ base_of form }
{
    match form {
        Form::Letters => 36,
        Form::Decimal => 10,
        _ => 16,
    }
}

// The form with one digit more.
fn after(form: Form) -> Form
    ensures { result ≡ after_of form }
{
    match form {
        Form::Dollar => Form::Hex,
        Form::Colon => Form::Banked,
        _ => form,
    }
}

// The first character of a word tells letters and decimal digits apart.
fn opened(form: Form, d: u8) -> Form
    ensures { result ≡ opened_of form d }
{
    match form {
        Form::Between if d < 10 => Form::Decimal,
        Form::Between => Form::Letters,
        _ => form,
    }
}

// A value of 2^56 or more is no word's and no number's; it grows no further.
fn grown(value: u64, base: u8, d: u8) -> u64
    ensures { result ≡ grown_of value base d }
{
    if value < 72057594037927936 {
        return value * base as u64 + d as u64;
    }
    value
}

// A digit or letter of value d.
#[tactic(auto, unfolding(crate::specs::Word::letter_of))]
pub fn letter(w: Word, d: u8) -> Word
    ensures { result ≡ letter_of w d }
{
    let form = opened(w.form, d);
    let by = base(form);
    if d < by {
        return Word {
            form: after(form),
            value: grown(w.value, by, d),
            ..w
        };
    }
    blank(Form::Bad)
}

// `$` stands in front of a number.
#[tactic(auto, unfolding(crate::specs::Word::dollar_of))]
pub fn dollar(w: Word) -> Word
    ensures { result ≡ dollar_of w }
{
    match w.form {
        Form::Between => blank(Form::Dollar),
        _ => blank(Form::Bad),
    }
}

// `:` stands between bank and address.
#[tactic(auto, unfolding(crate::specs::Word::colon_of))]
pub fn colon(w: Word) -> Word
    ensures { result ≡ colon_of w }
{
    match w.form {
        Form::Hex => Word {
            form: Form::Colon,
            value: 0,
            bank: w.value,
        },
        _ => blank(Form::Bad),
    }
}

// $100:0000 and $00:10000 are no numbers.
fn banked(bank: u64, value: u64) -> Option<Token>
    ensures { result ≡ banked_of bank value }
{
    if bank <= 255 && value <= 65535 {
        return Some(Token::Number(bank * 65536 + value));
    }
    None
}

#[tactic(auto, unfolding(crate::specs::Word::meaning_of))]
pub fn meaning(w: Word) -> Option<Token>
    ensures { result ≡ meaning_of w }
{
    match w.form {
        Form::Letters => Some(Token::Letters(w.value)),
        Form::Hex | Form::Decimal => Some(Token::Number(w.value)),
        Form::Banked => banked(w.bank, w.value),
        _ => None,
    }
}
