// A signature that the whole check accepted.
ghost use Rattle.std.specs.Prelude.{◌≡◌, ◌≤◌, MatchResult, Ok, Err};
ghost use Rattle.terms.specs.declared.Kind.{Kind};
ghost use Rattle.checking.specs.Whole.{WholePromise};
ghost use Rattle.trees.specs.Signature.{entries};

use checking::check_whole;
use terms::{Kind, Refusal};

// The signature of a tree that the whole check accepted, and how many entries it has.
#[derive(Clone, Copy)]
pub struct Accepted<'a> {
    pub sig: &'a [u16],
    pub n: u16,
    pub ghost accepted: { WholePromise Kind.Data sig.now (Ok tt) },
    pub ghost counted: { n ≡ entries sig.now },
    pub ghost small: { n ≤ 4096 },
}

impl<'a> Accepted<'a> {
    // The signature, where the whole check accepts it.
    pub fn check(sig: &'a [u16]) -> Result<Accepted<'a>, Refusal>
        ensures { MatchResult result (λ tree. tree.sig.now ≡ sig.now) (λ refused. WholePromise Kind.Data sig.now (Err refused)) }
    {
        check_whole(Kind::Data, sig)?;
        // A cast: the length is known to be small, and the library has no `From` from usize to u16.
        let n = (sig.len() / 4) as u16;
        Ok(Accepted { sig, n })
    }
}
