// An answer in eight numbers.
ghost use Rattle.std.specs.Prelude.{◌≡◌, ◌≤◌, length};
ghost use Rattle.rules.specs.QueryFile.{put};
ghost use Rattle.bodies.specs.Telling.{low, high, body_told};

use answers::write_four;
use rules::BodyAnswer;

fn low(sum: u64) -> u32
    ensures { result ≡ low sum }
{
    (sum % 4294967296) as u32
}

fn high(sum: u64) -> u32
    ensures { result ≡ high sum }
{
    (sum / 4294967296) as u32
}

// The eight numbers of an answer; a refusal is not told in them.
pub fn write_told(out: &mut [u32], answer: BodyAnswer)
    requires { 8 ≤ length out.old }
    ensures { out.new ≡ put out.old 0 (body_told answer) }
{
    match answer {
        BodyAnswer::Clear(sum) => {
            write_four(out, 0, 2, 0, 0, 0);
            write_four(out, 4, 0, 0, low(sum), high(sum));
        }
        BodyAnswer::Least {
            t,
            a,
            b,
            query,
            word,
            excess,
            count,
        } => {
            write_four(out, 0, word, t, a, b);
            write_four(out, 4, query, excess, low(count), high(count));
        }
        BodyAnswer::Refused(_) => {}
    }
}
