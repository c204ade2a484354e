//! The handle of a node: a pointer to one on the heap.
ghost use Rattle.std.specs.Prelude.{◌≡◌, Bool, true, false, Some, None};
ghost use Rattle.txc_c.specs.CountedNode.{Counted};
ghost use Rattle.std.specs.Option.{option_map};

use crate::counted::CountedNode;
use std::alloc::Global;
use std::marker::Model;
use std::{mem, ptr};
use txc_base::Parts;

/// A pointer to a node, or to none.
#[repr(C)]
pub struct Slot {
    ptr: *mut u8,
    alloc: Global,
    ghost is_full: { Bool },
    ghost value: { Counted },
}

impl Drop for Slot {
    /// A full slot must not be dropped: its node would never be freed.
    fn drop(self)
        requires { self.is_full ≡ false }
    {
        let Slot { ptr: _, alloc: _ } = self;
    }
}

impl Model for Slot {
    ghost use Rattle.std.specs.Box.Ownership.{box_owns};
    ghost use Rattle.txc_rows.specs.HandleOwnership.{when};
    ghost use Rattle.txc_c.specs.contracts.counted.CountedNode.{the_row};
    ghost use Rattle.std.specs.contracts.impls.GlobalAllocator.TheImpl.{ghosts};

    ghost also_owns = { λ n. when n.is_full (box_owns (ghosts.dealloc_token n.alloc) the_row n.ptr n.value) };
}

impl Slot {
    pub(crate) fn empty(alloc: Global) -> Slot
        ensures { result.is_full ≡ false }
    {
        Slot {
            ptr: ptr::null_mut(),
            alloc,
        }
    }

    pub(crate) fn of_parts(parts: Parts<CountedNode, Global>) -> Slot
        ensures { (result.is_full ≡ true) × (result.value ≡ parts.value) }
    {
        let Parts { ptr, alloc } = parts;
        Slot {
            ptr: ptr as *mut u8,
            alloc,
        }
    }

    pub(crate) fn into_parts(self) -> Parts<CountedNode, Global>
        requires { self.is_full ≡ true }
        ensures { result.value ≡ self.value }
    {
        let Slot { ptr, alloc } = self;
        Parts {
            ptr: ptr as *mut CountedNode,
            alloc,
        }
    }
}

/// The handle of a node, or of none.
#[repr(C)]
pub struct TxcNode {
    slot: Slot,
    is_open: bool,
    ghost full: { is_open ≡ slot.is_full },
}

impl Drop for TxcNode {
    /// An open handle must not be dropped.
    fn drop(self)
        requires { self.is_open ≡ false }
    {
        let TxcNode {
            slot: _,
            is_open: _,
        } = self;
    }
}

impl TxcNode {
    ghost use Rattle.txc_c.specs.HeldNode.{held};

    /// Returns its slot, and whether that has a node.
    pub(crate) fn into_slot(self) -> (Slot, bool)
        ensures slot { result.0 ≡ self.slot }
        ensures open { result.1 ≡ self.is_open }
        ensures full { result.1 ≡ result.0.is_full }
    {
        let TxcNode { slot, is_open } = self;
        (slot, is_open)
    }

    /// Returns `true` if it has a node.
    pub(crate) fn is_open(&self) -> bool
        ensures { result ≡ self.now.is_open }
    {
        self.is_open
    }

    pub(crate) fn closed(alloc: Global) -> TxcNode
        ensures { held result ≡ None }
    {
        TxcNode {
            slot: Slot::empty(alloc),
            is_open: false,
        }
    }

    /// Takes the node out, if there is one.
    pub(crate) fn take(&mut self, alloc: Global) -> Option<Box<CountedNode, Global>>
        ensures node { option_map (λ node. node.value) result ≡ held self.old }
        ensures after { held self.new ≡ None }
    {
        let (slot, is_open) = mem::replace(self, TxcNode::closed(alloc)).into_slot();
        if is_open {
            Some(slot.into_parts().into_box())
        } else {
            None
        }
    }

    /// Puts a node into an empty handle.
    pub(crate) fn put(&mut self, node: Box<CountedNode, Global>)
        requires { held self.old ≡ None }
        ensures { held self.new ≡ Some node.value }
    {
        *self = TxcNode {
            slot: Slot::of_parts(Parts::of(node)),
            is_open: true,
        };
    }
}

// A node may go to another thread, and so may the slot that points to it.
unsafe impl Send for Slot {}

pub(crate) fn crosses<T: Send>(_it: &T) {}

/// Shows that a handle may go to another thread: this compiles only if that is proved. It does nothing.
pub fn handle_crosses(handle: &TxcNode) {
    crosses(handle);
}
