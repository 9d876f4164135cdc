// A record of a query file searched. `answers` has a way that is quicker where the whole cube is clear, and stays quick only while one loop calls it.
ghost use Rattle.std.specs.Prelude.{◌≡◌, length};
ghost use Rattle.rules.specs.Answers.{queue_after};
ghost use Rattle.rules.specs.QueryFile.{record_at};
ghost use Rattle.rules.specs.Search.{search};
ghost use Rattle.answers.specs.Asking.{Asks};

use queries::record::decode;
use refusals::check_search;
use rules::Answer;
use search::{clear_unless, search_levels};

pub fn search_at(s: &[u8], edition: u8, at: usize, queue: &mut [u64], clean: bool) -> Answer
    requires { Asks edition s.now at queue.old clean }
    ensures value { result ≡ search (record_at edition s.now at) (length queue.old) }
    ensures queue_after { queue.new ≡ queue_after (search (record_at edition s.now at) (length queue.old)) queue.old }
{
    let r = decode(s, at, edition);
    if let Err(refusal) = check_search(r, queue.len()) {
        return Answer::Refused(refusal.number());
    }
    clear_unless(queue, clean);
    search_levels(r, queue)
}
