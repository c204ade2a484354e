//! The ports of a caller on the heap, behind a pointer that does not name their type.
ghost use Rattle.std.specs.Prelude.{◌≡◌, Bool, true, false};
ghost use Rattle.txc_caller.specs.Ports.{CallerPorts};

use crate::plain_ports::PlainPorts;
use std::alloc::Global;
use std::marker::Model;
use std::{mem, ptr};
use txc_app::App;
use txc_base::Parts;

/// A pointer to ports, or to none.
///
/// Each function above has the layout of every type that its own types reach, so the pointer is to a type that
/// has none.
pub(crate) struct PortsSlot<A: App> {
    ptr: *mut A,
    alloc: Global,
    ghost is_full: { Bool },
    ghost value: { CallerPorts },
}

impl<A: App> Drop for PortsSlot<A> {
    /// A full slot must not be dropped: its ports would never be freed.
    fn drop(self)
        requires { self.is_full ≡ false }
    {
        let PortsSlot { ptr: _, alloc: _ } = self;
    }
}

impl<A: App> Model for PortsSlot<A> {
    ghost use Rattle.std.specs.Box.Ownership.{box_owns};
    ghost use Rattle.txc_rows.specs.HandleOwnership.{when};
    ghost use Rattle.txc_caller.specs.contracts.plain_ports.PlainPorts.{the_row};
    ghost use Rattle.std.specs.contracts.impls.GlobalAllocator.TheImpl.{ghosts};

    ghost also_owns = { λ n. when n.is_full
        (box_owns (ghosts.dealloc_token n.alloc) (the_row A.row (record { next = A.next })) n.ptr n.value) };
}

impl<A: App> PortsSlot<A> {
    fn empty(alloc: Global) -> PortsSlot<A>
        ensures { result.is_full ≡ false }
    {
        PortsSlot {
            ptr: ptr::null_mut(),
            alloc,
        }
    }

    fn of_parts(parts: Parts<PlainPorts<A>, Global>) -> PortsSlot<A>
        ensures { (result.is_full ≡ true) × (result.value ≡ parts.value) }
    {
        let Parts { ptr, alloc } = parts;
        PortsSlot {
            ptr: ptr as *mut A,
            alloc,
        }
    }

    fn into_parts(self) -> Parts<PlainPorts<A>, Global>
        requires { self.is_full ≡ true }
        ensures { result.value ≡ self.value }
    {
        let PortsSlot { ptr, alloc } = self;
        Parts {
            ptr: ptr as *mut PlainPorts<A>,
            alloc,
        }
    }

    /// Makes the slot of these ports.
    pub(crate) fn of(ports: Box<PlainPorts<A>, Global>) -> PortsSlot<A>
        ensures { (result.is_full ≡ true) × (result.value ≡ ports.value) }
    {
        PortsSlot::of_parts(Parts::of(ports))
    }

    /// Returns the ports.
    pub(crate) fn into_ports(self) -> Box<PlainPorts<A>, Global>
        requires { self.is_full ≡ true }
        ensures { result.value ≡ self.value }
    {
        self.into_parts().into_box()
    }

    /// Takes the ports out, and leaves the slot empty.
    pub(crate) fn take(&mut self, alloc: Global) -> Box<PlainPorts<A>, Global>
        requires { self.old.is_full ≡ true }
        ensures ports { result.value ≡ self.old.value }
        ensures after { self.new.is_full ≡ false }
    {
        mem::replace(self, PortsSlot::empty(alloc)).into_ports()
    }

    /// Puts ports into an empty slot.
    pub(crate) fn put(&mut self, ports: Box<PlainPorts<A>, Global>)
        requires { self.old.is_full ≡ false }
        ensures { (self.new.is_full ≡ true) × (self.new.value ≡ ports.value) }
    {
        *self = PortsSlot::of(ports);
    }
}

// Ports may go to another thread, and so may the slot that points to them.
unsafe impl<A: App> Send for PortsSlot<A> {}
