// The answer file, for a controller in C.
ghost use Rattle.std.specs.Prelude.{◌≡◌};
ghost use Rattle.rules.specs.AnswerFile.{answer_form, match_refusal};
ghost use Rattle.answers.specs.Walk.{Counted};
ghost use Rattle.shift_log.specs.Calls.{Writes, Reads, Logs};
ghost use Rattle.controller.specs.Copying.{LogEnded};

use rules::number_in;

// An answer of an answer file, from eight numbers.
#[unsafe(no_mangle)]
pub extern "C" fn taperhive_log_write(out: &mut [u8], at: usize, told: &[u32]) -> u32
    ensures { Writes out.old at told.now out.new result }
{
    number_in(shift_log::write_entry(out, at, told))
}

// The trailer of an answer file.
#[unsafe(no_mangle)]
pub extern "C" fn taperhive_log_trailer(out: &mut [u8], at: usize, count: u32) -> u32
    ensures { LogEnded out.old at count out.new result }
{
    number_in(shift_log::write_trailer(out, at, count))
}

// Answer n of an answer file, in eight numbers.
#[unsafe(no_mangle)]
pub extern "C" fn taperhive_log_read(log: &[u8], n: usize, told: &mut [u32]) -> u32
    ensures { Reads log.now n told.old told.new result }
{
    number_in(shift_log::read_entry(log, n, told))
}

// How many answers an answer file has.
#[unsafe(no_mangle)]
pub extern "C" fn taperhive_log_count(log: &[u8], told: &mut [u32]) -> u32
    ensures { Counted answer_form log.now told.old told.new result }
{
    number_in(shift_log::count_entries(log, told))
}

// Whether an answer file has a query file's ids, in order.
#[unsafe(no_mangle)]
pub extern "C" fn taperhive_match(file: &[u8], log: &[u8]) -> u32
    ensures { result ≡ match_refusal file.now log.now }
{
    number_in(shift_log::match_files(file, log))
}

// Every record of a query file, answered into an answer file.
#[unsafe(no_mangle)]
pub extern "C" fn taperhive_log(file: &[u8], queue: &mut [u64], out: &mut [u8]) -> u32
    ensures { Logs file.now queue.old queue.new out.old out.new result }
{
    number_in(shift_log::log_file(file, queue, out))
}
