//! One node.

ghost use Rattle.std.specs.Prelude.{◌≡◌, ◌≤◌, IfOk, None};
ghost use Rattle.std.specs.FinMap as map;
ghost use Rattle.ntx_nodes.specs.Fields.{fresh};
ghost use Rattle.ntx_nodes.specs.Steps.{new_node, copy_of};

use crate::{Attributes, Contents, Fields, Kind};
use ntx_num::NoMemory;
use std::alloc::Global;

/// What one node holds. Its kind is that of its contents.
#[derive(Drop)]
pub struct Node {
    /// All its fields.
    pub fields: Fields,
    /// Its attributes.
    pub attributes: Attributes,
}

impl Node {
    /// A node of zeros and nothings, of a box with a ratio of 0 over 1, with no attributes.
    pub fn new(alloc: Global, kind: Kind, subtype: u8) -> Node
        ensures { result ≡ new_node kind subtype }
    {
        Node {
            fields: Fields {
                subtype,
                next: None,
                contents: Contents::fresh(kind),
            },
            attributes: Attributes::new(alloc),
        }
    }

    /// A node of the same kind, subtype, numbers and attributes, with no links.
    pub fn copy(&self) -> Result<Node, NoMemory>
        ensures { IfOk result (λ node. node ≡ copy_of self.now) }
    {
        let fields = self.fields;
        Ok(Node {
            fields: Fields {
                next: None,
                contents: fields.contents.unlinked(),
                ..fields
            },
            attributes: self.attributes.copy()?,
        })
    }
}
