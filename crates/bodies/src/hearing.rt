// What the queries come to: the least time with its first holder, and the sum of counts.
ghost use Rattle.std.specs.Prelude.{◌≡◌, ◌+◌, ◌≤◌};
ghost use Rattle.rules.specs.Answers.{has_moment};
ghost use Rattle.rules.specs.Bodies.{is_less, sum_of, counted, cap_of, is_over};
ghost use Rattle.bodies.specs.Walk.{SumRoom, HeardIs};

use rules::{BodyAnswer, Told};

fn has_moment(n: Told) -> bool
    ensures { result ≡ has_moment n }
{
    let word = n.word;
    (word == 1) | (word == 3) | (word == 4) | (word == 5)
}

fn is_less(t: u32, sofar: BodyAnswer) -> bool
    ensures { result ≡ is_less t sofar }
{
    match sofar {
        BodyAnswer::Clear(_) => true,
        BodyAnswer::Least { t: least, .. } => t < least,
        BodyAnswer::Refused(_) => false,
    }
}

// The cap of the next query: the least time so far, and the whole step where there is none.
pub fn cap_of(sofar: BodyAnswer) -> u32
    ensures { result ≡ cap_of sofar }
{
    match sofar {
        BodyAnswer::Least { t, .. } => t,
        BodyAnswer::Clear(_) | BodyAnswer::Refused(_) => 0,
    }
}

// A time of 0 ends the walk.
pub fn is_over(sofar: BodyAnswer) -> bool
    ensures { result ≡ is_over sofar }
{
    match sofar {
        BodyAnswer::Least { t, .. } => t == 0,
        BodyAnswer::Clear(_) | BodyAnswer::Refused(_) => false,
    }
}

fn sum_of(sofar: BodyAnswer) -> u64
    ensures { result ≡ sum_of sofar }
{
    match sofar {
        BodyAnswer::Clear(sum) => sum,
        BodyAnswer::Least { count, .. } => count,
        BodyAnswer::Refused(_) => 0,
    }
}

pub fn counted(n: u64, sofar: BodyAnswer) -> BodyAnswer
    requires { sum_of sofar + n ≤ 18446744073709551615 }
    ensures { result ≡ counted n sofar }
{
    match sofar {
        BodyAnswer::Clear(sum) => BodyAnswer::Clear(sum + n),
        BodyAnswer::Least {
            t,
            a,
            b,
            query,
            word,
            excess,
            count,
        } => BodyAnswer::Least {
            t,
            a,
            b,
            query,
            word,
            excess,
            count: count + n,
        },
        BodyAnswer::Refused(_) => sofar,
    }
}

// What was heard so far, and one query's answer more: it takes the place of the least only with a time that is less.
pub fn heard(sofar: BodyAnswer, a: u32, b: u32, query: u32, n: Told) -> BodyAnswer
    requires { SumRoom 1 sofar }
    ensures { HeardIs sofar a b query n result }
{
    if has_moment(n) & is_less(n.t, sofar) {
        let least = BodyAnswer::Least {
            t: n.t,
            a,
            b,
            query,
            word: n.word,
            excess: n.excess,
            count: sum_of(sofar),
        };
        return counted(n.count as u64, least);
    }
    counted(n.count as u64, sofar)
}
