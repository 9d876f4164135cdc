// The answer file: its records, its trailer, its count, its match with a query file, and a query file answered into one.
#![tactic(auto)]

ghost use Rattle.std.specs.Prelude.{◌≡◌, ◌+◌, ◌*◌, ◌≤◌, length};
ghost use Rattle.rules.specs.Refusals.{refusal_in};
ghost use Rattle.rules.specs.QueryFile.{record_size, trailer_bytes, trailer_refusal, put, Written};
ghost use Rattle.rules.specs.AnswerFile.{answer_form, match_refusal};
ghost use Rattle.answers.specs.Step.{Answering, Answered};
ghost use Rattle.answers.specs.Walk.{tells_all, queue_from, Counted};
ghost use Rattle.shift_log.specs.Calls.{bytes_of, Writes, ReadsAt, Reads, Logs, log_size};

use answers::asking::id_at;
use answers::{count_form, is_answered, numbers, write_eight};
use asking::search_at;
use entry::{answer_form, decode, encode, told_in};
use little::read_u32;
use matching::match_log;
use queries::record::place_of;
use queries::writing::{encode_trailer, write_trailer_form};
use queries::{left_from, open_file, open_form};
use rules::{Records, Refusal};
use word::check_word;

mod asking; // asking.rt: a record of the query file searched
pub mod entry; // entry.rt: one answer in bytes, and the form of the file
mod matching; // matching.rt: 17 MATCH
pub mod telling; // telling.rt: every answer of a file
mod word; // word.rt: 16 WORD

// ---- one answer, and the trailer

// An answer from eight numbers.
pub fn write_entry(out: &mut [u8], at: usize, numbers: &[u32]) -> Result<(), Refusal>
    ensures { Writes out.old at numbers.now out.new (refusal_in result) }
{
    if numbers.len() < 8 {
        return Err(Refusal::Space);
    }
    let a = told_in(numbers);
    check_word(a)?;
    if left_from(out.len(), at) < 32 {
        return Err(Refusal::Space);
    }
    encode(out, at, numbers[0], a);
    Ok(())
}

// The 16 bytes of a trailer behind so many answers.
pub fn write_trailer(s: &mut [u8], at: usize, count: u32) -> Result<(), Refusal>
    ensures { Written (trailer_refusal answer_form s.old at count) s.old at (trailer_bytes answer_form count) s.new result }
{
    write_trailer_form(s, at, answer_form(), count)
}

// How many answers a file has.
pub fn count_entries(log: &[u8], out: &mut [u32]) -> Result<(), Refusal>
    ensures { Counted answer_form log.now out.old out.new (refusal_in result) }
{
    count_form(log, answer_form(), out)
}

// The answer at a place, told where it is not refused.
fn read_at(log: &[u8], at: usize, out: &mut [u32]) -> Result<(), Refusal>
    requires { at + 32 ≤ length log.now }
    ensures { ReadsAt log.now at out.old out.new (refusal_in result) }
{
    let a = decode(log, at);
    check_word(a)?;
    if out.len() < 8 {
        return Err(Refusal::Space);
    }
    write_eight(out, 0, read_u32(log, at), a);
    Ok(())
}

// Answer n of a file, in eight numbers.
pub fn read_entry(log: &[u8], n: usize, out: &mut [u32]) -> Result<(), Refusal>
    ensures { Reads log.now n out.old out.new (refusal_in result) }
{
    let answers = open_form(log, answer_form())?;
    if answers.count <= n {
        return Err(Refusal::Index);
    }
    read_at(log, answers.first + 32 * n, out)
}

// ---- matching

// A query file and an answer file: 8 to 12 of each, then 17.
pub fn match_files(file: &[u8], log: &[u8]) -> Result<(), Refusal>
    ensures { refusal_in result ≡ match_refusal file.now log.now }
{
    match_log(file, open_file(file)?, log)
}

// ---- a query file answered

// One record, with a queue that is zero where it is `clean`; whether the queue is clean afterwards.
fn log_at(
    file: &[u8],
    edition: u8,
    at: usize,
    queue: &mut [u64],
    clean: bool,
    out: &mut [u8],
    to: usize,
) -> bool
    requires { Answering 32 edition file.now at queue.old clean out.old to }
    ensures { Answered bytes_of edition file.now at queue.old queue.new clean out.old to out.new result }
{
    let answer = search_at(file, edition, at, queue, clean);
    let n = numbers(answer);
    encode(out, to, id_at(file, at, edition), n);
    clean | is_answered(answer)
}

// Record after record, the queue cleared at the first that is answered.
fn log_records(file: &[u8], records: Records, queue: &mut [u64], out: &mut [u8])
    requires { (records.first + record_size records.edition * records.count ≤ length file.now) × (32 * records.count ≤ length out.old) }
    ensures out_after { out.new ≡ put out.old 0 (tells_all bytes_of records.edition file.now (length queue.old) records.count records.first) }
    ensures queue_after { queue.new ≡ queue_from records.edition file.now records.count records.first queue.old }
{
    let mut clean = false;
    for i in 0..records.count {
        let at = place_of(records.edition, records.first, i);
        clean = log_at(file, records.edition, at, queue, clean, out, 32 * i);
    }
}

// Every record of a query file, answered into an answer file from the first byte on.
pub fn log_file(file: &[u8], queue: &mut [u64], out: &mut [u8]) -> Result<(), Refusal>
    ensures { Logs file.now queue.old queue.new out.old out.new (refusal_in result) }
{
    let records = open_file(file)?;
    let size = 32 * records.count;
    if out.len() < size + 16 {
        return Err(Refusal::Space);
    }
    log_records(file, records, queue, out);
    encode_trailer(out, size, answer_form(), records.count as u32);
    Ok(())
}

// The bytes of the answer file of a query file: 0 where that is refused.
pub fn log_size(file: &[u8]) -> usize
    ensures { result ≡ log_size file.now }
{
    match open_file(file) {
        Err(_) => 0,
        Ok(records) => 32 * records.count + 16,
    }
}
