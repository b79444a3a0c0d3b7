// What a list of tags is held to.
use terms::Kind;

// Whether name 0 is allowed, and the greatest number of elements.
#[derive(Clone, Copy)]
pub struct Limits {
    pub any_name: bool,
    pub most: u16,
}

impl From<Kind> for Limits {
    ghost use Rattle.std.specs.Prelude.{◌≡◌};
    ghost use Rattle.tag_scan.specs.Cursors.{limits_of};

    ghost from_gives = { λ k l. l ≡ limits_of k };

    // The limits of a kind of tree.
    fn from(kind: Kind) -> Limits {
        Limits {
            any_name: kind.any_name(),
            most: kind.most(),
        }
    }
}
