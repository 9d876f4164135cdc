// Two bodies with their bounds.
ghost use Rattle.rules.specs.Refusals.{refusal_in};
ghost use Rattle.bounds.specs.Reach.{body_of};
ghost use Rattle.bodies.specs.Telling.{TellsWith};

use super::telling::write_told;
use super::{check_bodies, walk};
use bounds::{Body, are_exact};
use refusals::is_edition;
use rules::{Refusal, Terms};

// Two bodies with their bounds, told as without: 27 where a list is not what its triangles give, behind the queries' own numbers.
pub fn answer_with_bounds(
    w: Terms,
    a: Body,
    abounds: &[i32],
    b: Body,
    bbounds: &[i32],
    queue: &mut [u64],
    out: &mut [u32],
) -> Result<(), Refusal>
    ensures { TellsWith w (body_of a.entry) abounds.now (body_of b.entry) bbounds.now queue.old queue.new out.old out.new (refusal_in result) }
{
    if !is_edition(w.edition) {
        return Err(Refusal::Edition);
    }
    check_bodies(w, a, b, queue.len())?;
    let exact = are_exact(a, abounds) & are_exact(b, bbounds);
    if !exact {
        return Err(Refusal::Bounds);
    }
    if out.len() < 8 {
        return Err(Refusal::Space);
    }
    let answer = walk(w, a, abounds, b, bbounds, queue);
    write_told(out, answer);
    Ok(())
}
