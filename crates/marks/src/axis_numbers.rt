// The eleven axes and their numbers.
ghost use Rattle.std.specs.Prelude.{◌≡◌};
ghost use Rattle.marks.specs.Axis.{axis_by_number};

use terms::Fault;

// An axis of XPath. Its number is its place in this list, counted from 0.
#[derive(Clone, Copy)]
pub enum Axis {
    Itself,
    Child,
    Descendant,
    DescendantOrSelf,
    Parent,
    Ancestor,
    AncestorOrSelf,
    Following,
    Preceding,
    FollowingSibling,
    PrecedingSibling,
}

impl TryFrom<u16> for Axis {
    type Error = Fault;

    ghost try_from_gives = { λ number axis. axis ≡ axis_by_number number };

    // The axis with this number.
    fn try_from(number: u16) -> Result<Axis, Fault> {
        match number {
            0 => Ok(Axis::Itself),
            1 => Ok(Axis::Child),
            2 => Ok(Axis::Descendant),
            3 => Ok(Axis::DescendantOrSelf),
            4 => Ok(Axis::Parent),
            5 => Ok(Axis::Ancestor),
            6 => Ok(Axis::AncestorOrSelf),
            7 => Ok(Axis::Following),
            8 => Ok(Axis::Preceding),
            9 => Ok(Axis::FollowingSibling),
            10 => Ok(Axis::PrecedingSibling),
            _ => Err(Fault::BadArgument),
        }
    }
}
