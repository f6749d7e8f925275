// The asked points in chains, so that a walk looks only through those near the point where it is. Point k stands in
// stretch k / width, the width being such that 1,024 stretches reach past the farthest asked point; the questions of a
// stretch are a chain, the last one first.
ghost use Rattle.std.specs.Prelude.{◌≡◌, cond, ◌*◌, ◌≤◌, ◌<◌, eqb, length, set};
ghost use Rattle.alignment.specs.Internal.{Stretches, ChainedTo, Chained, nearest, Answered};

// Chains the questions, from empty chains on: `lasts` has for each stretch the place of its last question, and
// `earlier` for each question that of the one before it in its stretch. Places count from 1, and 0 is none.
pub(crate) fn chain_questions(
    asked: &[u32],
    width: u32,
    lasts: &mut [u16; 1024],
    earlier: &mut [u16; 256],
)
    requires { Stretches asked.now width × ChainedTo asked.now width 0 lasts.old earlier.old }
    ensures { Chained asked.now width lasts.new earlier.new }
{
    for (i, k) in asked.iter().enumerate() {
        let stretch = (*k / width) as usize;
        earlier[i] = lasts[stretch];
        lasts[stretch] = i as u16 + 1;
    }
}

// k where it is above `after` and below best, and else best.
fn nearer(after: u32, k: u32, best: u32) -> u32
    ensures { result ≡ nearest after k best }
{
    if k <= after {
        return best;
    }
    best.min(k)
}

// Stores a vertex number where its point is the one that was asked.
fn put_where(out: &mut [u16], i: usize, k: u32, point: u32, vertex: u16)
    requires { i < length out.old }
    ensures { out.new
        ≡ cond (eqb k point) (set out.old i vertex) out.old }
{
    if k == point {
        out[i] = vertex;
    }
}

// The asked points with their chains, each question in the one of its stretch.
#[derive(Clone, Copy)]
pub(crate) struct Chains<'a> {
    pub asked: &'a [u32],
    pub width: u32,
    pub lasts: &'a [u16; 1024],
    pub earlier: &'a [u16; 256],
    ghost chained: { Chained asked.now width lasts.now earlier.now },
}

impl<'a> Chains<'a> {
    // Stores a vertex number at each place where its point is asked, and returns where to look for questions next: the
    // least asked number after that point in its stretch, or where the stretch ends.
    pub(crate) fn answer_point(&self, point: u32, vertex: u16, out: &mut [u16]) -> u32
        requires { (point < 1024 * self.now.width) × (length self.now.asked.now ≤ length out.old) }
        ensures { Answered self.now.asked.now point vertex out.old result out.new }
    {
        let stretch = point / self.width;
        let mut next = (stretch + 1) * self.width;
        let mut place = self.lasts[stretch as usize];
        // no index is counted here: the chain leads from place to place
        while 0 < place {
            let i = place as usize - 1;
            let k = self.asked[i];
            put_where(out, i, k, point, vertex);
            next = nearer(point, k, next);
            place = self.earlier[i];
        }
        next
    }
}
