// The bytes that `sweep` prints, made in a buffer that the caller lends. What they must be stands in specs/Text.antt.
#![tactic(auto)]

ghost use Rattle.std.specs.Prelude.{◌≡◌, ◌+◌, ◌*◌, ◌≤◌, length, drop, [], cond, eqb};
ghost use Rattle.text.specs.Text.{
  decimal,
  field,
  file_text,
  kind_of,
  line,
  lines,
  named,
  refused_text,
  row_of,
  rows,
  tallied,
  tallies,
  tally,
  total,
  values,
};
ghost use Rattle.text.specs.Writers.{Printed, Wrote, room_for, room_for_refusal};

use pieces::{kind, write_byte, write_field, write_name, write_number, write_text};
use rules::Told;

pub mod pieces; // pieces.rt: bytes, numbers and names

// A record's id beside its answer in numbers.
#[derive(Clone, Copy)]
pub struct Row {
    pub id: u32,
    pub answer: Told,
}

// The five numbers of an answer, or the number of a refusal.
fn write_values(out: &mut [u8], at: usize, answer: Told) -> usize
    requires { at + 55 ≤ length out.old }
    ensures { Wrote 55 out.old at (values answer) out.new result }
{
    if kind(answer.word) == 0 {
        return write_field(out, at, answer.number);
    }
    let u_at = write_field(out, at, answer.t);
    let v_at = write_field(out, u_at, answer.u);
    let excess_at = write_field(out, v_at, answer.v);
    let count_at = write_field(out, excess_at, answer.excess);
    write_field(out, count_at, answer.count)
}

// A record's line.
fn write_line(out: &mut [u8], at: usize, row: Row) -> usize
    requires { at + 80 ≤ length out.old }
    ensures { Wrote 80 out.old at (line row) out.new result }
{
    let name_at = write_number(out, at, row.id);
    let values_at = write_name(out, name_at, row.answer.word);
    let end_at = write_values(out, values_at, row.answer);
    write_byte(out, end_at, b'\n')
}

// The answer of record i, at 8·i.
fn row_at(told: &[u32], i: usize) -> Row
    requires { 8 * i + 8 ≤ length told.now }
    ensures { result ≡ row_of (drop (8 * i) told.now) }
{
    let at = 8 * i;
    Row {
        id: told[at],
        answer: Told {
            word: told[at + 1],
            t: told[at + 2],
            u: told[at + 3],
            v: told[at + 4],
            excess: told[at + 5],
            count: told[at + 6],
            number: told[at + 7],
        },
    }
}

// The lines of the first n answers, from the buffer's start, and the place behind them.
fn write_lines(told: &[u32], n: usize, out: &mut [u8]) -> usize
    requires { (8 * n ≤ length told.now) × (80 * n ≤ length out.old) }
    ensures { Wrote (80 * n) out.old 0 (lines (rows n told.now)) out.new result }
{
    let mut at = 0;
    for i in 0..n {
        at = write_line(out, at, row_at(told, i));
    }
    at
}

// How many of the first n answers have the word k.
fn count_word(told: &[u32], n: u32, k: u32) -> u32
    requires { 8 * n ≤ length told.now }
    ensures { result ≡ tally k (rows n told.now) }
{
    let mut sum = 0;
    for i in 0..n as usize {
        sum += u32::from(kind(told[8 * i + 1]) == k);
    }
    sum
}

// The name of the word k and how many of the answers have it.
fn write_tally(told: &[u32], n: u32, out: &mut [u8], at: usize, k: u32) -> usize
    requires { (8 * n ≤ length told.now) × (at + 19 ≤ length out.old) }
    ensures { Wrote 19 out.old at (tallied k (rows n told.now)) out.new result }
{
    let number_at = write_name(out, at, k);
    write_field(out, number_at, count_word(told, n, k))
}

// The six tallies.
fn write_tallies(told: &[u32], n: u32, out: &mut [u8], at: usize) -> usize
    requires { (8 * n ≤ length told.now) × (at + 114 ≤ length out.old) }
    ensures { Wrote 114 out.old at (tallies (rows n told.now)) out.new result }
{
    let mut end = at;
    for word in [1, 2, 3, 4, 5, 0] {
        end = write_tally(told, n, out, end, word);
    }
    end
}

// The TOTAL line.
fn write_total(told: &[u32], n: u32, out: &mut [u8], at: usize) -> usize
    requires { (8 * n ≤ length told.now) × (at + 160 ≤ length out.old) }
    ensures { Wrote 160 out.old at (total (rows n told.now)) out.new result }
{
    let number_at = write_text(out, at, b"TOTAL");
    let tallies_at = write_field(out, number_at, n);
    let end_at = write_tallies(told, n, out, tallies_at);
    write_byte(out, end_at, b'\n')
}

// What `sweep` prints of a file with n records, from the buffer's start, and how many bytes it has. `told` has eight numbers a record:
// id, word, t, u, v, excess, count, refusal number. None, and nothing written, where it has fewer, or where the text might not fit.
pub fn write_answers(told: &[u32], n: u32, out: &mut [u8]) -> Option<usize>
    ensures { Printed (room_for n told.now out.old) (file_text (rows n told.now)) out.old out.new result }
{
    let records = n as usize;
    if told.len() < 8 * records {
        return None;
    }
    if out.len() < 80 * records + 160 {
        return None;
    }
    let total_at = write_lines(told, records, out);
    Some(write_total(told, n, out, total_at))
}

// What `sweep` prints of a refused file, and how many bytes it has. None, and nothing written, in a buffer of fewer than 16 bytes.
pub fn write_refused(number: u32, out: &mut [u8]) -> Option<usize>
    ensures { Printed (room_for_refusal out.old) (refused_text number) out.old out.new result }
{
    if out.len() < 16 {
        return None;
    }
    let number_at = write_text(out, 0, b"FILE");
    let end_at = write_field(out, number_at, number);
    Some(write_byte(out, end_at, b'\n'))
}
