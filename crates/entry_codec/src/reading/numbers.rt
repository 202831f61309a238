//! Numbers of two, four and eight bytes, the highest byte first.

ghost use Rattle.std.specs.Prelude.{◌≡◌};
ghost use Rattle.entry_codec.specs.Reads.{Reads};
ghost use Rattle.entry_codec.specs.Values as spec;

use super::reader::{Reader, Stop};

impl<'a> Reader<'a> {
    #[tactic(auto, unfolding(crate::specs::Values::number16))]
    pub fn number16(&mut self) -> Result<u16, Stop>
        ensures { Reads (λ n. n) result self.new.left.now (spec.number16.read self.old.left.now) }
    {
        let bytes = self.chunk(2)?;
        Ok(u16::from_be_bytes([bytes[0], bytes[1]]))
    }

    #[tactic(auto, unfolding(crate::specs::Values::number32))]
    pub fn number32(&mut self) -> Result<u32, Stop>
        ensures { Reads (λ n. n) result self.new.left.now (spec.number32.read self.old.left.now) }
    {
        let bytes = self.chunk(4)?;
        Ok(u32::from_be_bytes([bytes[0], bytes[1], bytes[2], bytes[3]]))
    }

    #[tactic(auto, unfolding(crate::specs::Values::number64))]
    pub fn number64(&mut self) -> Result<u64, Stop>
        ensures { Reads (λ n. n) result self.new.left.now (spec.number64.read self.old.left.now) }
    {
        let bytes = self.chunk(8)?;
        Ok(u64::from_be_bytes([
            bytes[0], bytes[1], bytes[2], bytes[3], bytes[4], bytes[5], bytes[6], bytes[7],
        ]))
    }
}
