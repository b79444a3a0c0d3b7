// Layer 3, tag_scan: the tags of a list judged, one by one.
#![tactic(auto)]

mod limits;

ghost use Rattle.std.specs.Prelude.{◌≡◌, true, ◌+◌, ◌≤◌, length};

pub use limits::Limits;
use terms::Fault;

// Where a reader of tags stands: the place of the next tag, the elements that are open, and the elements read so far.
#[derive(Clone, Copy)]
pub struct Cursor {
    pub at: usize,
    pub depth: u16,
    pub count: u16,
}

impl Cursor {
    ghost use Rattle.terms.specs.Faults.{tested};
    ghost use Rattle.tag_scan.specs.TagLists.{opening, root_closed, tag_fault, tree_end};
    ghost use Rattle.tag_scan.specs.Cursors.{scan_of};

    // Whether the root is closed.
    #[tactic(auto, unfolding(crate::specs::TagLists::closed_with))]
    fn is_root_closed(self) -> bool
        ensures { result ≡ root_closed (scan_of self) }
    {
        self.depth == 0 && 0 < self.count
    }

    // The fault of the record of an `OP` mark.
    #[tactic(auto, unfolding(crate::specs::TagLists::tag_fault, crate::specs::TagLists::misnested, crate::specs::TagLists::nameless_at))]
    fn test_open(self, bytes: &[u8], limits: Limits) -> Result<(), Fault>
        requires { (self.at + 2 ≤ length bytes.now) × (opening bytes.now self.at ≡ true) }
        ensures { tested result ≡ tag_fault limits.any_name limits.most bytes.now (scan_of self) }
    {
        if bytes.len() - self.at < 4 {
            Err(Fault::Cut)
        } else if !limits.any_name && bytes_read::number_at(bytes, self.at + 2) == 0 {
            Err(Fault::Nameless)
        } else if self.is_root_closed() {
            Err(Fault::BadNesting)
        } else if limits.most <= self.count {
            Err(Fault::TooMany)
        } else {
            Ok(())
        }
    }

    // The fault of the tag that stands there.
    #[tactic(auto, unfolding(crate::specs::TagLists::tag_fault, crate::specs::TagLists::misnested))]
    pub fn test_tag(self, bytes: &[u8], limits: Limits) -> Result<(), Fault>
        ensures { tested result ≡ tag_fault limits.any_name limits.most bytes.now (scan_of self) }
    {
        // No saturating difference: a tag that is there then takes one test more.
        if bytes.len() <= self.at {
            if 0 < self.count {
                Err(Fault::BadNesting)
            } else {
                Err(Fault::Cut)
            }
        } else if bytes.len() - self.at < 2 {
            Err(Fault::Cut)
        } else if bytes_read::is_marked(bytes, self.at, b"OP") {
            self.test_open(bytes, limits)
        } else if !bytes_read::is_marked(bytes, self.at, b"CL") {
            Err(Fault::UnknownMark)
        } else if self.depth == 0 {
            Err(Fault::BadNesting)
        } else {
            Ok(())
        }
    }

    // Whether a tree is read: to the end of the bytes where the whole of them is asked for.
    #[tactic(auto, unfolding(crate::specs::TagLists::tree_end))]
    pub fn is_tree_end(self, bytes: &[u8], whole: bool) -> bool
        ensures { result ≡ tree_end «whole» bytes.now (scan_of self) }
    {
        self.is_root_closed() && (!whole || self.at == bytes.len())
    }
}
