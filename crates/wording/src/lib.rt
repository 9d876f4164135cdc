// The line that `why` prints, made in a buffer that the caller lends. What it must be stands in specs/Line.antt.
#![tactic(auto)]

ghost use Rattle.std.specs.Prelude.{◌≡◌, ◌+◌, ◌≤◌, ◌<◌, length};
ghost use Rattle.text.specs.Writers.{Wrote};
ghost use Rattle.kernel.specs.Ranges.{OnGrid, Shallow, InGrid};
ghost use Rattle.wording.specs.Line.{
  Drawn,
  axis_byte,
  box,
  head,
  index_text,
  level_text,
  numbered,
  of_file,
  percent,
  refused,
  ruled_out,
  share,
  shares,
  side_byte,
  span,
  spans,
  three,
  two,
  why_text,
};

use gap::PARTS;
use gap::cell::cell_of;
use rules::{Axis, Reason, Ruling, Side, Three};
use text::pieces::{write_byte, write_field, write_number, write_text};

fn axis_byte(axis: Axis) -> u8
    ensures { result ≡ axis_byte axis }
{
    match axis {
        Axis::X => b'x',
        Axis::Y => b'y',
        Axis::Z => b'z',
    }
}

fn side_byte(side: Side) -> u8
    ensures { result ≡ side_byte side }
{
    match side {
        Side::Below => b'-',
        Side::Above => b'+',
    }
}

fn write_head(out: &mut [u8], at: usize, axis: Axis, side: Side) -> usize
    requires { at + 42 ≤ length out.old }
    ensures { Wrote 42 out.old at (head axis side) out.new result }
{
    let axis_at = write_text(out, at, b"RULED OUT on ");
    let body_at = write_byte(out, axis_at, axis_byte(axis));
    let side_at = write_text(out, body_at, b", first body on the ");
    let end_at = write_byte(out, side_at, side_byte(side));
    write_text(out, end_at, b" side: ")
}

// The ends of one parameter in parts.
fn write_span(out: &mut [u8], at: usize, letter: u8, from: u64, to: u64) -> usize
    requires { (at + 26 ≤ length out.old) × ((from ≤ 1048576) × (to ≤ 1048576)) }
    ensures { Wrote 26 out.old at (span letter from to) out.new result }
{
    let from_at = write_byte(out, at, letter);
    let word_at = write_field(out, from_at, from as u32);
    let to_at = write_text(out, word_at, b" to");
    write_field(out, to_at, to as u32)
}

fn write_two(out: &mut [u8], at: usize, n: u64) -> usize
    requires { (at + 2 ≤ length out.old) × (n < 100) }
    ensures { Wrote 2 out.old at (two n) out.new result }
{
    let last = write_byte(out, at, b'0' + ((n / 10) as u8));
    write_byte(out, last, b'0' + ((n % 10) as u8))
}

fn write_percent(out: &mut [u8], at: usize, n: u64) -> usize
    requires { (at + 15 ≤ length out.old) × (n ≤ 1048576) }
    ensures { Wrote 15 out.old at (percent n) out.new result }
{
    let hundredths = n * 10000 / PARTS;
    let point_at = write_number(out, at, (hundredths / 100) as u32);
    let two_at = write_byte(out, point_at, b'.');
    let sign_at = write_two(out, two_at, hundredths % 100);
    write_text(out, sign_at, b" %")
}

// The ends of one parameter in percent.
fn write_share(out: &mut [u8], at: usize, from: u64, to: u64) -> usize
    requires { (at + 34 ≤ length out.old) × ((from ≤ 1048576) × (to ≤ 1048576)) }
    ensures { Wrote 34 out.old at (share from to) out.new result }
{
    let word_at = write_percent(out, at, from);
    let to_at = write_text(out, word_at, b" to ");
    write_percent(out, to_at, to)
}

fn write_spans(out: &mut [u8], at: usize, k: Three, i: Three) -> usize
    requires { (at + 82 ≤ length out.old) × (Shallow 20 k × InGrid k i) }
    ensures { Wrote 82 out.old at (spans k i) out.new result }
{
    let w = cell_of(20, k, i);
    let t_end = write_span(out, at, b't', w.t0, w.t1);
    let u_at = write_text(out, t_end, b", ");
    let u_end = write_span(out, u_at, b'u', w.u0, w.u1);
    let v_at = write_text(out, u_end, b", ");
    write_span(out, v_at, b'v', w.v0, w.v1)
}

fn write_shares(out: &mut [u8], at: usize, k: Three, i: Three) -> usize
    requires { (at + 106 ≤ length out.old) × (Shallow 20 k × InGrid k i) }
    ensures { Wrote 106 out.old at (shares k i) out.new result }
{
    let w = cell_of(20, k, i);
    let t_end = write_share(out, at, w.t0, w.t1);
    let u_at = write_text(out, t_end, b", ");
    let u_end = write_share(out, u_at, w.u0, w.u1);
    let v_at = write_text(out, u_end, b", ");
    write_share(out, v_at, w.v0, w.v1)
}

fn write_three(out: &mut [u8], at: usize, n: Three) -> usize
    requires { (at + 33 ≤ length out.old) × ((n.t < 1048576) × ((n.u < 1048576) × (n.v < 1048576))) }
    ensures { Wrote 33 out.old at (three n) out.new result }
{
    let u_at = write_field(out, at, n.t as u32);
    let v_at = write_field(out, u_at, n.u as u32);
    write_field(out, v_at, n.v as u32)
}

fn write_level(out: &mut [u8], at: usize, x: Reason) -> usize
    requires { (at + 60 ≤ length out.old) × OnGrid x }
    ensures { Wrote 60 out.old at (level_text x) out.new result }
{
    let level_at = write_text(out, at, b"); level");
    let word_at = write_field(out, level_at, x.level as u32);
    let depths_at = write_text(out, word_at, b", depths");
    write_three(out, depths_at, x.depths)
}

fn write_index(out: &mut [u8], at: usize, x: Reason) -> usize
    requires { (at + 39 ≤ length out.old) × OnGrid x }
    ensures { Wrote 39 out.old at (index_text x) out.new result }
{
    let index_at = write_text(out, at, b", box");
    let end_at = write_three(out, index_at, x.index);
    write_byte(out, end_at, b'\n')
}

// The level, the depths and the box, to the end of the line.
fn write_box(out: &mut [u8], at: usize, x: Reason) -> usize
    requires { (at + 99 ≤ length out.old) × OnGrid x }
    ensures { Wrote 99 out.old at (box x) out.new result }
{
    let index_at = write_level(out, at, x);
    write_index(out, index_at, x)
}

fn write_ruled_out(out: &mut [u8], x: Reason) -> usize
    requires { (331 ≤ length out.old) × OnGrid x }
    ensures { Wrote 331 out.old 0 (ruled_out x) out.new result }
{
    let spans_at = write_head(out, 0, x.axis, x.side);
    let open_at = write_spans(out, spans_at, x.depths, x.index);
    let shares_at = write_text(out, open_at, b" (");
    let box_at = write_shares(out, shares_at, x.depths, x.index);
    write_box(out, box_at, x)
}

fn is_of_file(n: u32) -> bool
    ensures { result ≡ of_file n }
{
    matches!(n, 8..=13 | 15)
}

fn write_word(out: &mut [u8], word: &[u8], n: u32) -> usize
    requires { (length word.now + 12 ≤ length out.old) × (length word.now ≤ 7) }
    ensures { Wrote 331 out.old 0 (numbered word.now n) out.new result }
{
    let number_at = write_text(out, 0, word);
    let end_at = write_field(out, number_at, n);
    write_byte(out, end_at, b'\n')
}

fn write_refusal(out: &mut [u8], n: u32) -> usize
    requires { 331 ≤ length out.old }
    ensures { Wrote 331 out.old 0 (refused n) out.new result }
{
    if n == 23 {
        return write_text(
            out,
            0,
            b"REFUSED 23 not in the domain (t, u and v are at most 1048576, and for a face so is u + v), or t is beyond the cap\n",
        );
    }
    if n == 24 {
        return write_text(
            out,
            0,
            b"REFUSED 24 not ruled out: the search answers this moment or an earlier one\n",
        );
    }
    if is_of_file(n) {
        return write_word(out, b"FILE", n);
    }
    write_word(out, b"REFUSED", n)
}

// The line of an answer, from the buffer's start, and how many bytes it has.
pub fn write_ruling(out: &mut [u8], a: Ruling) -> usize
    requires { (331 ≤ length out.old) × Drawn a }
    ensures { Wrote 331 out.old 0 (why_text a) out.new result }
{
    match a {
        Ruling::Discarded(x) => write_ruled_out(out, x),
        Ruling::Refused(n) => write_refusal(out, n),
    }
}
