// The records of a query file, searched and told in eight numbers each.
#![tactic(auto)]

ghost use Rattle.std.specs.Prelude.{◌≡◌, true, ◌∷◌, [], ◌+◌, ◌*◌, ◌≤◌, length};
ghost use Rattle.rules.specs.Answers.{told, queue_after};
ghost use Rattle.rules.specs.Refusals.{refusal_in};
ghost use Rattle.rules.specs.QueryFile.{file_form, is_wide, record_size, put};
ghost use Rattle.rules.specs.Search.{search};
ghost use Rattle.queries.specs.Held.{Held};
ghost use Rattle.answers.specs.Eight.{eight};
ghost use Rattle.answers.specs.Step.{is_answered, Answering, Answered};
ghost use Rattle.answers.specs.Walk.{tells, tells_from, queue_from, One, Every, Counted};

use asking::{id_at, search_at};
use queries::record::{encode, place_of};
use queries::{file_form, open_file, open_form};
use rules::{Answer, Form, Record, Records, Refusal, Told};

pub mod asking; // asking.rt: a record asked where it stands in a file

// ---- an answer in numbers

fn moment(word: u32, t: u32, u: u32, v: u32, excess: u32, count: u32) -> Told
    ensures { result ≡ record { word = word; t = t; u = u; v = v; excess = excess; count = count; number = 0 } }
{
    Told {
        word,
        t,
        u,
        v,
        excess,
        count,
        number: 0,
    }
}

pub fn numbers(answer: Answer) -> Told
    ensures { result ≡ told answer }
{
    match answer {
        Answer::Met {
            t,
            u,
            v,
            excess,
            count,
        } => moment(1, t, u, v, excess, count),
        Answer::Clear(count) => moment(2, 0, 0, 0, 0, count),
        Answer::Spent {
            t,
            u,
            v,
            excess,
            count,
        } => moment(3, t, u, v, excess, count),
        Answer::Room {
            t,
            u,
            v,
            excess,
            count,
        } => moment(4, t, u, v, excess, count),
        Answer::Floor {
            t,
            u,
            v,
            excess,
            count,
        } => moment(5, t, u, v, excess, count),
        Answer::Refused(number) => Told {
            number,
            ..moment(0, 0, 0, 0, 0, 0)
        },
    }
}

pub fn write_four(out: &mut [u32], at: usize, a: u32, b: u32, c: u32, d: u32)
    requires { at + 4 ≤ length out.old }
    ensures { out.new ≡ put out.old at (a ∷ b ∷ c ∷ d ∷ []) }
{
    out[at] = a;
    out[at + 1] = b;
    out[at + 2] = c;
    out[at + 3] = d;
}

// The eight numbers of a record's answer, from `at` on.
pub fn write_eight(out: &mut [u32], at: usize, id: u32, n: Told)
    requires { at + 8 ≤ length out.old }
    ensures { out.new ≡ put out.old at (eight id n) }
{
    write_four(out, at, id, n.word, n.t, n.u);
    write_four(out, at + 4, n.v, n.excess, n.count, n.number);
}

// ---- records searched

pub fn is_answered(answer: Answer) -> bool
    ensures { result ≡ is_answered answer }
{
    !matches!(answer, Answer::Refused(_))
}

// One record, with a queue that is zero where it is `clean`; whether the queue is clean afterwards.
fn answer_at(
    file: &[u8],
    edition: u8,
    at: usize,
    queue: &mut [u64],
    clean: bool,
    out: &mut [u32],
    to: usize,
) -> bool
    requires { Answering 8 edition file.now at queue.old clean out.old to }
    ensures { Answered eight edition file.now at queue.old queue.new clean out.old to out.new result }
{
    let answer = search_at(file, edition, at, queue, clean);
    let n = numbers(answer);
    write_eight(out, to, id_at(file, at, edition), n);
    clean | is_answered(answer)
}

// Record after record, the queue cleared at the first that is answered.
pub fn answer_records(file: &[u8], records: Records, queue: &mut [u64], out: &mut [u32])
    requires { (records.first + record_size records.edition * records.count ≤ length file.now) × (8 * records.count ≤ length out.old) }
    ensures out_after { out.new ≡ put out.old 0 (tells_from records.edition file.now (length queue.old) records.count records.first) }
    ensures queue_after { queue.new ≡ queue_from records.edition file.now records.count records.first queue.old }
{
    let mut clean = false;
    for i in 0..records.count {
        let at = place_of(records.edition, records.first, i);
        clean = answer_at(file, records.edition, at, queue, clean, out, 8 * i);
    }
}

// A record that stands in no file: it is asked where its bytes stand, so that there is one way into the search.
pub fn answer_record(r: Record, queue: &mut [u64], out: &mut [u32])
    requires { Held true r × (is_wide r.edition ≡ true) × (8 ≤ length out.old) }
    ensures out_after { out.new ≡ put out.old 0 (tells r (length queue.old)) }
    ensures queue_after { queue.new ≡ queue_after (search r (length queue.old)) queue.old }
{
    let mut bytes = [0u8; 128];
    encode(&mut bytes, 0, r.edition, r);
    let records = Records {
        edition: r.edition,
        first: 0,
        count: 1,
    };
    answer_records(&bytes, records, queue, out);
}

// Record n of a file.
pub fn answer_one(file: &[u8], n: usize, queue: &mut [u64], out: &mut [u32]) -> Result<(), Refusal>
    ensures { One file.now n queue.old queue.new out.old out.new (refusal_in result) }
{
    let records = open_file(file)?;
    if records.count <= n {
        return Err(Refusal::Index);
    }
    if out.len() < 8 {
        return Err(Refusal::Space);
    }
    let one = Records {
        first: place_of(records.edition, records.first, n),
        count: 1,
        ..records
    };
    answer_records(file, one, queue, out);
    Ok(())
}

// Every record of a file.
pub fn answer_all(file: &[u8], queue: &mut [u64], out: &mut [u32]) -> Result<(), Refusal>
    ensures { Every file.now queue.old queue.new out.old out.new (refusal_in result) }
{
    let records = open_file(file)?;
    if out.len() < 8 * records.count {
        return Err(Refusal::Space);
    }
    answer_records(file, records, queue, out);
    Ok(())
}

// How many records a file of a form has.
pub fn count_form(file: &[u8], form: Form, out: &mut [u32]) -> Result<(), Refusal>
    ensures { Counted form file.now out.old out.new (refusal_in result) }
{
    let records = open_form(file, form)?;
    if out.len() < 1 {
        return Err(Refusal::Space);
    }
    out[0] = records.count as u32;
    Ok(())
}

// How many records a query file has.
pub fn count_records(file: &[u8], out: &mut [u32]) -> Result<(), Refusal>
    ensures { Counted (file_form file.now) file.now out.old out.new (refusal_in result) }
{
    count_form(file, file_form(file), out)
}
