// The page of a query file that is in memory: what `sweep` prints of it. What that must be stands in specs/Page.antt.
#![tactic(auto)]

ghost use Rattle.std.specs.Prelude.{◌+◌, ◌*◌, ◌≤◌, true, length};
ghost use Rattle.rules.specs.QueryFile.{record_size};
ghost use Rattle.answers.specs.Walk.{tells_from};
ghost use Rattle.text.specs.Text.{rows, file_text};
ghost use Rattle.text.specs.Writers.{Printed};
ghost use Rattle.page.specs.Page.{Paged};

use rules::{Records, Refusal};

// The lines of a file's records and its TOTAL, in a buffer that holds them.
fn write_records(file: &[u8], records: Records, out: &mut [u8]) -> Option<usize>
    requires { (records.first + record_size records.edition * records.count ≤ length file.now) × ((records.count ≤ 564) × (45280 ≤ length out.old)) }
    ensures { Printed true (file_text (rows records.count (tells_from records.edition file.now 4096 records.count records.first))) out.old out.new result }
{
    let mut queue = [0u64; 4096];
    let mut told = [0u32; 4512];
    answers::answer_records(file, records, &mut queue, &mut told);
    text::write_answers(&told, records.count as u32, out)
}

// The text of a file's answers, or of its refusal, from the buffer's start, and how many bytes it has. None, and nothing written, in a buffer of fewer than 45,280 bytes.
pub fn write_page(file: &[u8], out: &mut [u8]) -> Option<usize>
    ensures { Paged file.now out.old out.new result }
{
    if out.len() < 45280 {
        return None;
    }
    if 65536 < file.len() {
        return text::write_refused(Refusal::Long.number(), out);
    }
    match queries::open_file(file) {
        Err(refusal) => text::write_refused(refusal.number(), out),
        Ok(records) => write_records(file, records, out),
    }
}
