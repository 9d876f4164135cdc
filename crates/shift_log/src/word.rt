// 16 WORD: what no answer says, as a table.
ghost use Rattle.std.specs.Prelude.{◌||◌, ◌≡◌, eqb, ltb};
ghost use Rattle.rules.specs.Answers.{has_moment};
ghost use Rattle.rules.specs.AnswerFile.{is_refused, no_moment, word_refusal};
ghost use Rattle.rules.specs.Refusals.{refusal_in};

use rules::{Refusal, Told};

fn no_moment(a: Told) -> bool
    ensures { result ≡ no_moment a }
{
    (a.t == 0) & (a.u == 0) & (a.v == 0) & (a.excess == 0)
}

fn is_refused(a: Told) -> bool
    ensures { result ≡ is_refused a }
{
    a.word == 0
}

fn has_moment(a: Told) -> bool
    ensures { result ≡ has_moment a }
{
    (a.word == 1) | (a.word == 3) | (a.word == 4) | (a.word == 5)
}

fn is_off_grid(a: Told) -> bool
    ensures { result ≡ (ltb 1048575 a.t || ltb 1048575 a.u || ltb 1048575 a.v) }
{
    (1048575 < a.t) | (1048575 < a.u) | (1048575 < a.v)
}

fn is_no_count(n: u32) -> bool
    ensures { result ≡ (eqb n 0 || ltb 1000000 n) }
{
    (n == 0) | (1000000 < n)
}

fn is_zero(n: u32) -> bool
    ensures { result ≡ eqb n 0 }
{
    n == 0
}

fn is_above_5(n: u32) -> bool
    ensures { result ≡ ltb 5 n }
{
    5 < n
}

// 16 where any row of its table is due: the rows in the order of the table.
pub fn check_word(a: Told) -> Result<(), Refusal>
    ensures { refusal_in result ≡ word_refusal a }
{
    let refused = is_refused(a);
    let unnumbered = is_zero(a.number);
    let wrong = is_above_5(a.word)
        | is_off_grid(a)
        | !refused & is_no_count(a.count)
        | refused & unnumbered
        | !has_moment(a) & !no_moment(a)
        | refused & !is_zero(a.count)
        | !refused & !unnumbered;
    if wrong { Err(Refusal::Word) } else { Ok(()) }
}
