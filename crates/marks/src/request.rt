// An axis call whose signature was accepted and whose arguments were judged.
ghost use Rattle.std.specs.Prelude.{◌≡◌, true};
ghost use Rattle.xpath.specs.Select.{within};

use crate::{Axis, fine_axis};
use blocks::Accepted;
use terms::Refusal;

// What an axis call asks, apart from the position: the contexts are ranks of the tree.
#[derive(Clone, Copy)]
pub struct Request<'a> {
    pub tree: Accepted<'a>,
    pub contexts: &'a [u16],
    pub axis: Axis,
    pub name: u16,
    pub ghost ranks: { within tree.n contexts.now ≡ true },
}

impl<'a> Request<'a> {
    ghost use Rattle.marks.specs.Requests.{JudgePromise};

    // The request, where neither the whole check nor an argument refuses the call. The axis is a number, as in `fine_axis`: its 8 comes behind
    // what the check refuses.
    pub fn judge(
        sig: &'a [u16],
        contexts: &'a [u16],
        axis: u16,
        name: u16,
    ) -> Result<Request<'a>, Refusal>
        ensures { JudgePromise sig.now contexts.now axis name result }
    {
        let tree = Accepted::check(sig)?;
        let axis = fine_axis(tree.n, contexts, axis)?;
        Ok(Request {
            tree,
            contexts,
            axis,
            name,
        })
    }
}
