// A record of a query file asked why it is safe at a point, and the box that is named told in nine numbers.
#![tactic(auto)]

ghost use Rattle.std.specs.Prelude.{◌≡◌, ◌≤◌, length};
ghost use Rattle.rules.specs.QueryFile.{put};
ghost use Rattle.rules.specs.Why.{nine};
ghost use Rattle.kernel.specs.Ranges.{OnGrid};
ghost use Rattle.reasons.specs.Telling.{Rules, TellsWhy};

use answers::write_four;
use descent::{check_ask, why_accepted};
use queries::fetch;
use rules::{Reason, Refusal, Ruling, Three};

// Record n of a file and a point, in parts. 14, where there is no room for what is to be told, comes before the search.
pub fn rule(file: &[u8], n: usize, at: Three, room: bool, queue: &mut [u64]) -> Ruling
    ensures { Rules file.now n at room queue.old queue.new result }
{
    let f = fetch(file, n);
    let refusal = f.refusal;
    if refusal != 0 {
        return Ruling::Refused(refusal);
    }
    let query = f.query;
    if let Err(refusal) = check_ask(query, queue.len(), at) {
        return Ruling::Refused(refusal.number());
    }
    if !room {
        return Ruling::Refused(Refusal::Space.number());
    }
    why_accepted(query, at, queue)
}

// The nine numbers of a box that is named, from the first place on.
fn write_nine(out: &mut [u32], x: Reason)
    requires { (9 ≤ length out.old) × OnGrid x }
    ensures { out.new ≡ put out.old 0 (nine x) }
{
    let k = x.depths;
    let i = x.index;
    write_four(out, 0, x.level as u32, k.t as u32, k.u as u32, k.v as u32);
    write_four(out, 4, i.t as u32, i.u as u32, i.v as u32, x.axis as u32);
    out[8] = x.side as u32;
}

// The same told: t, u, v of any 32 bits.
pub fn tell(
    file: &[u8],
    n: usize,
    t: u32,
    u: u32,
    v: u32,
    queue: &mut [u64],
    out: &mut [u32],
) -> u32
    ensures { TellsWhy file.now n (record { t = t; u = u; v = v }) queue.old queue.new out.old out.new result }
{
    let at = Three {
        t: t as u64,
        u: u as u64,
        v: v as u64,
    };
    match rule(file, n, at, 9 <= out.len(), queue) {
        Ruling::Refused(number) => number,
        Ruling::Discarded(x) => {
            write_nine(out, x);
            0
        }
    }
}
