// Whether an answer file has a query file's ids, in order.
ghost use Rattle.std.specs.Prelude.{◌≡◌, ◌+◌, ◌*◌, ◌≤◌, length};
ghost use Rattle.rules.specs.Refusals.{refusal_in};
ghost use Rattle.rules.specs.QueryFile.{record_size};
ghost use Rattle.rules.specs.AnswerFile.{same_ids};
ghost use Rattle.shift_log.specs.Calls.{match_rest};

use super::entry::answer_form;
use little::read_u32;
use queries::open_form;
use queries::record::record_size;
use rules::{Records, Refusal};

// Whether the ids of so many queries and answers agree, in order.
fn same_ids(s: &[u8], size: usize, first: usize, log: &[u8], to: usize, count: usize) -> bool
    requires { (8 ≤ size) × (first + size * count ≤ length s.now) × (to + 32 * count ≤ length log.now) }
    ensures { result ≡ same_ids size s.now (first + 4) log.now to count }
{
    let mut all = true;
    for i in 0..count {
        all &= read_u32(s, first + 4 + size * i) == read_u32(log, to + 32 * i);
    }
    all
}

// An answer file against a query file that is open: 8 to 12 of the answer file, then 17.
pub fn match_log(s: &[u8], queries: Records, log: &[u8]) -> Result<(), Refusal>
    requires { queries.first + record_size queries.edition * queries.count ≤ length s.now }
    ensures { refusal_in result ≡ match_rest (record_size queries.edition) s.now queries.first queries.count log.now }
{
    let answers = open_form(log, answer_form())?;
    let size = record_size(queries.edition) as usize;
    if queries.count == answers.count
        && same_ids(s, size, queries.first, log, answers.first, answers.count)
    {
        Ok(())
    } else {
        Err(Refusal::Match)
    }
}
