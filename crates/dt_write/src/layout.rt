//! Where the blocks of a canonical blob lie.

ghost use Rattle.std.specs.Prelude.{◌≡◌, ◌<◌, [], OnOk, IsErrOf};
ghost use Rattle.dt_model.specs.Token.{BeginNode, EndNode, Finish};
ghost use Rattle.dt_model.specs.Node.{name_of, property_token};
ghost use Rattle.dt_model.specs.Canonical.{most_bytes};
ghost use Rattle.dt_write.specs.Layout.{with_token, size_of};

use crate::fault::WriteFault;
use crate::names::{MOST_BYTES, Names};
use crate::words::{push_padding, push_property, push_word};
use dt_model::{Node, Property};
use std::alloc::Global;
use std::marker::Model;

/// The structure block as it grows, and the names of the strings block. Contracts see both.
#[derive(Drop)]
pub struct Layout<'a> {
    structure: Vec<u8>,
    names: Names<'a>,
}

impl<'a> Model for Layout<'a> {
    ghost use Rattle.dt_write.specs.Layout.{Laid};

    ghost Value = { Laid };

    ghost view = { λ l. record { structure = l.structure.items; names = l.names } };
}

impl<'a> Layout<'a> {
    /// No token.
    pub fn new(alloc: Global) -> Layout<'a>
        ensures { result ≡ record { structure = []; names = [] } }
    {
        Layout {
            structure: Vec::new(alloc),
            names: Names::new(alloc),
        }
    }

    /// A node begins.
    #[tactic(auto, unfolding(crate::specs::Layout::with_token, dt_model::specs::Canonical::spelling))]
    pub fn begin(&mut self, node: &Node) -> Result<(), WriteFault>
        ensures laid { OnOk result (self.new ≡ with_token self.old (BeginNode (name_of node.now))) }
        ensures too_large { IsErrOf result WriteFault.TooLarge → most_bytes < size_of (with_token self.old (BeginNode (name_of node.now))) }
    {
        let name = node.name.as_slice();
        if name.len() > MOST_BYTES {
            return Err(WriteFault::TooLarge);
        }
        push_word(&mut self.structure, 1)?;
        self.structure.extend_from_slice(name)?;
        self.structure.push(0)?;
        push_padding(&mut self.structure, name.len() + 1)?;
        self.check()
    }

    /// A property comes.
    #[tactic(auto, unfolding(crate::specs::Layout::with_token, dt_model::specs::Canonical::spelling))]
    pub fn property(&mut self, property: &'a Property) -> Result<(), WriteFault>
        ensures laid { OnOk result (self.new ≡ with_token self.old (property_token property.now)) }
        ensures too_large { IsErrOf result WriteFault.TooLarge → most_bytes < size_of (with_token self.old (property_token property.now)) }
    {
        let value = property.value.as_slice();
        if value.len() > MOST_BYTES {
            return Err(WriteFault::TooLarge);
        }
        let place = self.names.place(property.name.as_slice())?;
        push_property(&mut self.structure, place, value)?;
        self.check()
    }

    /// The innermost node ends.
    #[tactic(auto, unfolding(crate::specs::Layout::with_token, dt_model::specs::Canonical::spelling))]
    pub fn end(&mut self) -> Result<(), WriteFault>
        ensures laid { OnOk result (self.new ≡ with_token self.old EndNode) }
        ensures too_large { IsErrOf result WriteFault.TooLarge → most_bytes < size_of (with_token self.old EndNode) }
    {
        push_word(&mut self.structure, 2)?;
        self.check()
    }

    /// The tree ends.
    #[tactic(auto, unfolding(crate::specs::Layout::with_token, dt_model::specs::Canonical::spelling))]
    pub fn finish(&mut self) -> Result<(), WriteFault>
        ensures laid { OnOk result (self.new ≡ with_token self.old Finish) }
        ensures too_large { IsErrOf result WriteFault.TooLarge → most_bytes < size_of (with_token self.old Finish) }
    {
        push_word(&mut self.structure, 9)?;
        self.check()
    }

    /// The bytes of the structure block.
    pub fn structure(&self) -> &[u8]
        ensures { result.now ≡ self.now.structure }
    {
        self.structure.as_slice()
    }

    /// The names of the strings block.
    pub fn names(&self) -> &Names<'a>
        ensures { result.now ≡ self.now.names }
    {
        &self.names
    }

    /// Whether the structure block alone is too large already.
    fn check(&self) -> Result<(), WriteFault>
        ensures too_large { IsErrOf result WriteFault.TooLarge → most_bytes < size_of self.now }
        ensures memory { IsErrOf result WriteFault.NoMemory → ⊥ }
    {
        if self.structure.len() > MOST_BYTES {
            return Err(WriteFault::TooLarge);
        }
        Ok(())
    }
}
