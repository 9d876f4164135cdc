// The page of an answer file that is in memory: what `tell` prints of it. What that must be stands in specs/Page.antt.
#![tactic(auto)]

ghost use Rattle.std.specs.Prelude.{◌+◌, ◌*◌, ◌≤◌, true, length};
ghost use Rattle.shift_log.specs.Calls.{entries_told};
ghost use Rattle.text.specs.Text.{rows, file_text};
ghost use Rattle.text.specs.Writers.{Printed};
ghost use Rattle.retold.specs.Page.{Retold};

use rules::Refusal;

// The lines of a file's answers and their TOTAL, in a buffer that holds them.
fn write_entries(log: &[u8], first: usize, count: usize, out: &mut [u8]) -> Option<usize>
    requires { (first + 32 * count ≤ length log.now) × ((count ≤ 4096) × (327840 ≤ length out.old)) }
    ensures { Printed true (file_text (rows count (entries_told log.now first count))) out.old out.new result }
{
    let mut told = [0u32; 32768];
    shift_log::telling::tell_entries(log, first, count, &mut told);
    text::write_answers(&told, count as u32, out)
}

// The text of a file's answers, or of its refusal, from the buffer's start, and how many bytes it has. None, and nothing written, in a buffer of fewer than 327,840 bytes.
pub fn write_told(log: &[u8], out: &mut [u8]) -> Option<usize>
    ensures { Retold log.now out.old out.new result }
{
    if out.len() < 327840 {
        return None;
    }
    if 262144 < log.len() {
        return text::write_refused(Refusal::Long.number(), out);
    }
    match queries::open_form(log, shift_log::entry::answer_form()) {
        Err(refusal) => text::write_refused(refusal.number(), out),
        Ok(answers) => {
            if shift_log::telling::are_taken(log, answers.first, answers.count) {
                write_entries(log, answers.first, answers.count, out)
            } else {
                text::write_refused(Refusal::Word.number(), out)
            }
        }
    }
}
