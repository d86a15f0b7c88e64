ghost use Rattle.std.specs.Prelude.{◌≡◌, ◌+◌, ◌<◌, ◌++◌, List, ℕ, length, OnOk, IfErr};
ghost use Rattle.wire_codec.specs.Cursor.{PassesGroup, Steps};
ghost use Rattle.wire_codec.specs.Faults.{FaultAt, FieldFault};
ghost use Rattle.wire_codec.specs.Tag.{IsTag};

use crate::cursor::Cursor;
use crate::open_group::OpenGroup;
use crate::open_groups::OpenGroups;
use crate::wire_error::WireError;
use crate::wire_type::WireType;

impl<'a> Cursor<'a> {
    /// Passes the rest of a group whose start tag was passed, up to its end tag. It is kept apart from
    /// what calls it, since each entry pays for the stack.
    #[inline(never)]
    pub(crate) fn group(&mut self, first: OpenGroup) -> Result<(), WireError>
        ensures found { OnOk result (PassesGroup self.old first.number self.new) }
        ensures fault { IfErr result (λ e. (tag : List ℕ) → IsTag tag first.number 3
            → self.old.place ≡ first.place + length tag → FieldFault first.place (tag ++ self.old.rest) e) }
    {
        let mut groups = OpenGroups::new(first);
        while !groups.is_empty() {
            self.step(&mut groups)?;
        }
        Ok(())
    }

    /// Passes a plain field, or a tag that begins or ends a group.
    fn step(&mut self, groups: &mut OpenGroups) -> Result<(), WireError>
        requires { 0 < length groups.old }
        ensures found { OnOk result (Steps self.old groups.old self.new groups.new) }
        ensures fault { IfErr result (FaultAt self.old.place groups.old self.old.rest) }
    {
        let place = self.place();
        let innermost = groups.innermost();
        if self.is_at_end() {
            return Err(WireError::GroupOpen {
                place: innermost.place,
            });
        }
        let tag = self.tag()?;
        match tag.wire_type {
            WireType::Plain(plain) => {
                self.payload(plain)?;
            }
            WireType::StartGroup => {
                if groups.is_full() {
                    return Err(WireError::TooDeep { place });
                }
                groups.push(OpenGroup {
                    number: tag.number,
                    place,
                });
            }
            WireType::EndGroup => {
                if tag.number != innermost.number {
                    return Err(WireError::LoneEndGroup { place });
                }
                groups.pop();
            }
        }
        Ok(())
    }
}
